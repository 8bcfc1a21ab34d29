// Sets of instants. Traces have at most 63 instants here, which count from 1.
ghost use Rattle.std.specs.Prelude.{◌≡◌, ℕ, ◌+◌, ◌&&◌, ◌||◌, ◌==◌, nat_lt, Decides};
ghost use Rattle.trace.specs.Symbols.{has};
ghost use Rattle.evaluator.specs.Quantifiers.{In, AllIn, AllAfter};

use trace::symbols::SymbolSet;

// The longest trace that is evaluated.
pub const LONGEST: usize = 63;

// A set of instants, as a set of numbers up to 63.
#[derive(Clone, Copy, PartialEq)]
pub struct Instants {
    numbers: SymbolSet,
}

impl Instants {
    // The set that no instant is in.
    pub fn none() -> Instants
        ensures { (i : ℕ) → In result i → ⊥ }
    {
        Instants {
            numbers: SymbolSet::empty(),
        }
    }

    // Whether an instant is in the set.
    pub fn has(self, instant: usize) -> bool
        ensures { result ≡ has self.numbers instant }
    {
        instant <= LONGEST && self.numbers.contains(instant as u8)
    }

    // The set with one instant more. An instant above 63 changes nothing.
    pub fn with(self, instant: usize) -> Instants
        ensures { (i : ℕ) → has result.numbers i ≡ (has self.numbers i || (nat_lt i 64 && instant == i)) }
    {
        if instant > LONGEST {
            return self;
        }
        Instants {
            numbers: self.numbers.with(instant as u8),
        }
    }

    // Whether every k with from <= k < to is in the set.
    pub fn has_all(self, from: usize, to: usize) -> bool
        ensures { Decides result (AllIn (In self) from to) }
    {
        (from..to).all(|k| self.has(k))
    }

    // Whether every k with after < k <= through is in the set.
    pub fn has_after(self, after: usize, through: usize) -> bool
        ensures { Decides result (AllAfter (In self) after through) }
    {
        (after..=through).all(|k| k == after || self.has(k))
    }
}
