// A record of runs: a code byte and a count byte stand for that many equal instants.
ghost use Rattle.std.specs.Prelude.{◌≡◌, ◌≤◌};
ghost use Rattle.bottoms.specs.Records.{runs, run_length};

use crate::code::code_reading;
use crate::record::{Layout, Record};
use trace::reading::{Cause, Reading};
use trace::source::MAX_INSTANTS;

// The layout of runs.
#[derive(Clone, Copy)]
pub struct RunLayout;

// The trace of a record of runs.
pub type Runs<'a> = Record<'a, RunLayout>;

// How many instants a pair with this count byte stands for.
fn run_length(count: u8) -> usize
    ensures exact { result ≡ run_length count }
    ensures small { result ≤ 256 }
{
    usize::from(count)
}

// The instants of runs: each two bytes are as many equal ones as the second says; a last byte alone is a fault.
impl Layout for RunLayout {
    ghost instants = { runs 0 };

    fn extent(bytes: &[u8]) -> Result<usize, usize> {
        let (pairs, lone) = bytes.as_chunks::<2>();
        let mut total = 0;
        for (k, pair) in pairs.iter().enumerate() {
            total += run_length(pair[1]);
            if total > MAX_INSTANTS {
                return Err(2 * k);
            }
        }
        if lone.is_empty() {
            Ok(total)
        } else if total < MAX_INSTANTS {
            Ok(total + 1)
        } else {
            Err(2 * pairs.len())
        }
    }

    fn shown(bytes: &[u8], index: usize) -> Option<Reading> {
        let (pairs, lone) = bytes.as_chunks::<2>();
        let mut left = index;
        for (k, pair) in pairs.iter().enumerate() {
            let count = run_length(pair[1]);
            if left < count {
                return Some(code_reading(pair[0], 2 * k));
            }
            left -= count;
        }
        if left == 0 && !lone.is_empty() {
            Some(Err(Cause::CutShort.at(2 * pairs.len())))
        } else {
            None
        }
    }
}
