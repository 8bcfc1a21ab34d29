// Why a row or a rule is not added to a sheet.
ghost use Rattle.std.specs.Prelude.{◌≡◌, Some};
ghost use Rattle.sheet.specs.Refusals.{code, printed, spelling};

use std::error::Error;
use std::fmt;

// What stands in the way of a row or a rule.
#[derive(Clone, Copy, Debug, PartialEq, Eq)]
pub enum Refusal {
    // The sheet has all the rows, or all the rules, that it may have.
    SheetFull,
    // An operand is no earlier row, a symbol is none, or a rule names a row that is not there.
    BadOperand,
    // An operand looks the way that the row's kind does not take.
    Unseparated,
}

impl Refusal {
    // The number that the refusal is told by.
    pub fn number(self) -> u8
        ensures { result ≡ (code self).number }
    {
        match self {
            Refusal::SheetFull => 11,
            Refusal::BadOperand => 12,
            Refusal::Unseparated => 13,
        }
    }

    // The words that the refusal is told by.
    pub fn word(self) -> &'static str
        ensures { result.now ≡ spelling self }
    {
        match self {
            Refusal::SheetFull => "sheet full",
            Refusal::BadOperand => "bad operand",
            Refusal::Unseparated => "unseparated",
        }
    }
}

// The number and the words, as they are printed.
impl fmt::Display for Refusal {
    ghost output = { λ x. Some (printed x) };

    fn fmt<W: fmt::Write>(&self, f: &mut fmt::Formatter<W>) -> fmt::Result {
        write!(f, "{}, {}", self.number(), self.word())
    }
}

impl Error for Refusal {}
