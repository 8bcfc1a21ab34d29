// The trace interface. A source stands for a list of at most 1,024 readings, and answers by that list alone.
ghost use Rattle.std.specs.Prelude.{◌≡◌, ◌≤◌, List, length};
ghost use Rattle.trace.specs.Readings.{Reading, reading_at, Indexed};

use crate::reading::{Fault, Reading};

// No trace has more instants than this.
pub const MAX_INSTANTS: usize = 1024;

// Whatever a trace can be read from.
pub trait Source {
    // What the source means: the readings of its instants, the first one first.
    ghost readings: { Self → List Reading };

    // There are at most 1,024 of them; each source proves it of its own list.
    ghost few: { (s : Self) → length (readings s) ≤ 1024 };

    // How many instants the trace has.
    fn len(&self) -> usize
        ensures { result ≡ length (readings self.now) };

    // What an instant shows. Instants count from 1; one that the trace does not have answers a fault that says so.
    fn reading(&self, instant: usize) -> Reading
        ensures { result ≡ reading_at (readings self.now) instant };
}

// The index, from 0, of an instant of a trace of n; or the fault of an instant that the trace does not have.
pub fn index_of(instant: usize, n: usize) -> Result<usize, Fault>
    ensures { Indexed n instant result }
{
    if instant == 0 || instant > n {
        return Err(Fault::outside(instant));
    }
    Ok(instant - 1)
}
