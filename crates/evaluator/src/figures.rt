// A rule's figures of one trace, counted instant by instant.
ghost use Rattle.std.specs.Prelude.{◌≡◌};
ghost use Rattle.evaluator.specs.Tallies.{pair, Tally, Figured, no_figures, summed};

use crate::instants::Instants;

// A whole, in millionths.
const MILLIONTHS: u64 = 1_000_000;

// How often the activator and the target hold, together and alone, how often neither does, whether the trace is triggered (1 or
// 0), and its degree in millionths.
#[derive(Clone, Copy, PartialEq, Default)]
pub struct RuleCount {
    pub both: u64,
    pub act: u64,
    pub tgt: u64,
    pub none: u64,
    pub triggered: u64,
    pub degree: u64,
}

impl RuleCount {
    // The figures of nothing.
    pub fn zero() -> RuleCount
        ensures { result ≡ no_figures }
    {
        RuleCount::default()
    }

    // The sums of two figures; a sum that does not fit is the largest number that does.
    pub fn plus(self, more: RuleCount) -> RuleCount
        ensures { result ≡ summed self more }
    {
        RuleCount {
            both: self.both.saturating_add(more.both),
            act: self.act.saturating_add(more.act),
            tgt: self.tgt.saturating_add(more.tgt),
            none: self.none.saturating_add(more.none),
            triggered: self.triggered.saturating_add(more.triggered),
            degree: self.degree.saturating_add(more.degree),
        }
    }
}

// Whether an instant is in the first set as `first` says, and in the second as `second` says.
fn is_pair(a: Instants, first: bool, b: Instants, second: bool, i: usize) -> bool
    ensures { result ≡ pair a first b second i }
{
    a.has(i) == first && b.has(i) == second
}

// How many instants from 1 to n are in the first set as `first` says, and in the second as `second` says.
fn count(a: Instants, first: bool, b: Instants, second: bool, n: usize) -> u64
    ensures { Tally a b first second n result }
{
    (0..n)
        .filter(|k| is_pair(a, first, b, second, *k + 1))
        .count() as u64
}

// The figures of a rule on a trace of n instants, its activator and its target holding at these.
pub fn count_rule(activator: Instants, target: Instants, n: usize) -> RuleCount
    ensures { Figured activator target n result }
{
    let both = count(activator, true, target, true, n);
    let act = count(activator, true, target, false, n);
    let tgt = count(activator, false, target, true, n);
    let none = count(activator, false, target, false, n);
    let held = both + act;
    if held == 0 {
        return RuleCount {
            both,
            act,
            tgt,
            none,
            ..RuleCount::zero()
        };
    }
    RuleCount {
        both,
        act,
        tgt,
        none,
        triggered: 1,
        degree: both * MILLIONTHS / held,
    }
}
