// Why a renaming is refused.
ghost use Rattle.std.specs.Prelude.{◌≡◌, codes, Some};
ghost use Rattle.layers.specs.Refusals.{refusal_number, refusal_word, printed};

use std::fmt;

// The refusals of this crate.
#[derive(Clone, Copy, PartialEq, Eq, Debug)]
pub enum Refusal {
    // The symbol to rename is above 63, or what it is sent to is above 64.
    BadRenaming,
}

impl Refusal {
    // The number by which the refusal is told.
    pub fn number(self) -> u8
        ensures { result ≡ refusal_number self }
    {
        match self {
            Refusal::BadRenaming => 17,
        }
    }

    // The word that goes with the number.
    pub fn word(self) -> &'static str
        ensures { result.now ≡ refusal_word self }
    {
        match self {
            Refusal::BadRenaming => "bad renaming",
        }
    }
}

// The number and the word, as they are printed.
impl fmt::Display for Refusal {
    ghost output = { λ x. Some (printed x) };

    fn fmt<W: fmt::Write>(&self, f: &mut fmt::Formatter<W>) -> fmt::Result {
        write!(f, "{}, {}", self.number(), self.word())
    }
}
