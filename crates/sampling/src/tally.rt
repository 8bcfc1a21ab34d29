// How many comparisons were made, and how many agreed.
ghost use Rattle.std.specs.Prelude.{◌≡◌, ◌++◌, Some, codes, decimal};
ghost use Rattle.sampling.specs.Tallies.{noted, summed};

use std::fmt;

// The comparisons of one kind.
#[derive(Clone, Copy)]
pub struct Tally {
    compared: u64,
    agreed: u64,
}

impl Tally {
    // No comparison yet.
    pub fn new() -> Tally
        ensures compared { result.compared ≡ 0 }
        ensures agreed { result.agreed ≡ 0 }
    {
        Tally {
            compared: 0,
            agreed: 0,
        }
    }

    // One comparison more.
    pub fn note(&mut self, agrees: bool)
        ensures { self.new ≡ noted self.old agrees }
    {
        self.compared = self.compared.saturating_add(1);
        if agrees {
            self.agreed = self.agreed.saturating_add(1);
        }
    }

    // The comparisons of both.
    pub fn plus(self, more: Tally) -> Tally
        ensures { result ≡ summed self more }
    {
        Tally {
            compared: self.compared.saturating_add(more.compared),
            agreed: self.agreed.saturating_add(more.agreed),
        }
    }
}

// How many comparisons there were, and how many agreed.
impl fmt::Display for Tally {
    ghost output = { λ t. Some (decimal t.compared ++ codes " compared, " ++ decimal t.agreed ++ codes " agreed") };

    fn fmt<W: fmt::Write>(&self, f: &mut fmt::Formatter<W>) -> fmt::Result {
        write!(f, "{} compared, {} agreed", self.compared, self.agreed)
    }
}
