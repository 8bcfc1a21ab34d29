// The part of a trace that is evaluated.
ghost use Rattle.std.specs.Prelude.{◌≡◌, ◌-◌, ◌≤◌, length, slice_index};
ghost use Rattle.evaluator.specs.Quantifiers.{Answered};
ghost use Rattle.evaluator.specs.Truths.{evaluated};

use crate::instants::{Instants, LONGEST};

// The first 63 instants of a trace. An instant is the set of symbols that hold there, symbol s where the bit of value 2^s is set.
#[derive(Drop)]
pub(crate) struct ShortTrace<'a> {
    instants: &'a [u64],
    ghost short: { length instants.now ≤ 63 },
}

impl<'a> ShortTrace<'a> {
    // A trace, cut after its first 63 instants.
    pub(crate) fn of(trace: &'a [u64]) -> ShortTrace<'a>
        ensures { result.instants.now ≡ evaluated trace.now }
    {
        let end = trace.len().min(LONGEST);
        ShortTrace {
            instants: &trace[0..end],
        }
    }

    // How many instants there are.
    pub(crate) fn len(&self) -> usize
        ensures { result ≡ length self.now.instants.now }
    {
        self.instants.len()
    }

    // The instants at which a test passes. It is asked of the symbols of each instant, and of the instant's number.
    pub(crate) fn passing<F: Fn(u64, usize) -> bool>(&self, test: F) -> Instants
        requires { F.IsAlwaysCallable test }
        ensures { Answered result (length self.now.instants.now) (λ i. F.post test (slice_index self.now.instants.now (i - 1)) i) }
    {
        let mut passing = Instants::none();
        for (k, symbols) in self.instants.iter().enumerate() {
            if test(*symbols, k + 1) {
                passing = passing.with(k + 1);
            }
        }
        passing
    }
}
