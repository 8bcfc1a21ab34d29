// A trace of two instants, for tests.
ghost use Rattle.std.specs.Prelude.{[], ◌∷◌};
ghost use Rattle.std.proofs.Common.{lit≤};

use trace::reading::{Fault, Reading};
use trace::source::Source;

// What the two instants show.
#[derive(Clone, Copy)]
pub(crate) struct Pair {
    pub first: Reading,
    pub second: Reading,
}

impl Source for Pair {
    ghost readings = { λ s. s.first ∷ s.second ∷ [] };

    ghost few = { λ _. lit≤ tt };

    fn len(&self) -> usize {
        2
    }

    fn reading(&self, instant: usize) -> Reading {
        match instant {
            1 => self.first,
            2 => self.second,
            _ => Err(Fault::outside(instant)),
        }
    }
}
