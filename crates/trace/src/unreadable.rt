// The search for the first instant of a trace that cannot be read.
ghost use Rattle.std.specs.Prelude.{◌≡◌};
ghost use Rattle.trace.specs.Unreadable.{first_unreadable, First};

use crate::reading::Fault;
use crate::source::Source;

// An instant that cannot be read, and its fault.
#[derive(Clone, Copy, PartialEq, Eq, Debug)]
pub struct UnreadableInstant {
    pub instant: usize,
    pub fault: Fault,
}

// The first instant that cannot be read, from 1 up, with its fault whole; none where every instant can be read.
pub fn first_unreadable<S: Source>(source: &S) -> Option<UnreadableInstant>
    ensures value { result ≡ first_unreadable 1 (S.Source.readings source.now) }
    ensures first { First (S.Source.readings source.now) result }
{
    let n = source.len();
    let mut instant = 1;
    loop {
        if instant > n {
            break None;
        }
        if let Err(fault) = source.reading(instant) {
            break Some(UnreadableInstant { instant, fault });
        }
        instant += 1;
    }
}
