// Why a rule text is not added to a sheet.
ghost use Rattle.std.specs.Prelude.{◌≡◌, Some};
ghost use Rattle.text.specs.declared.refusal.TextRefusal.TheVariants.{Text, Row};
ghost use Rattle.text.specs.Refusals.{code, place, printed, spelling};

use sheet::refusal::Refusal;
use std::error::Error;
use std::fmt;

// Why bytes are no rule text. Both hold a place, the offset of a byte.
#[derive(Clone, Copy, Debug, PartialEq, Eq)]
pub enum Misreading {
    // No rule text can follow after the byte at this place, or the text ends here too early.
    BadText(usize),
    // The bracket at this place opens one group too many inside one another.
    TooDeep(usize),
}

// Why a rule text is not added: it is none, or one of its rows or its rule is refused.
#[derive(Clone, Copy, Debug, PartialEq, Eq)]
pub enum TextRefusal {
    Text(Misreading),
    Row(Refusal),
}

impl TextRefusal {
    // The number that the refusal is told by.
    pub fn number(self) -> u8
        ensures { result ≡ (code self).number }
    {
        match self {
            TextRefusal::Text(Misreading::BadText(_)) => 14,
            TextRefusal::Text(Misreading::TooDeep(_)) => 15,
            TextRefusal::Row(refusal) => refusal.number(),
        }
    }

    // The words that the refusal is told by.
    pub fn word(self) -> &'static str
        ensures { result.now ≡ spelling self }
    {
        match self {
            TextRefusal::Text(Misreading::BadText(_)) => "bad text",
            TextRefusal::Text(Misreading::TooDeep(_)) => "too deep",
            TextRefusal::Row(refusal) => refusal.word(),
        }
    }

    // The place that is told with the refusal, if one is.
    pub fn place(self) -> Option<usize>
        ensures { result ≡ place self }
    {
        match self {
            TextRefusal::Text(Misreading::BadText(place)) => Some(place),
            TextRefusal::Text(Misreading::TooDeep(place)) => Some(place),
            TextRefusal::Row(_) => None,
        }
    }
}

// The number and the words, as they are printed.
impl fmt::Display for TextRefusal {
    ghost output = { λ x. Some (printed x) };

    fn fmt<W: fmt::Write>(&self, f: &mut fmt::Formatter<W>) -> fmt::Result {
        write!(f, "{}, {}", self.number(), self.word())
    }
}

impl Error for TextRefusal {}

// Bytes that are no rule text.
impl From<Misreading> for TextRefusal {
    ghost from_gives = { λ x e. e ≡ Text x };

    fn from(misreading: Misreading) -> TextRefusal {
        TextRefusal::Text(misreading)
    }
}

// A row or a rule that the sheet refuses.
impl From<Refusal> for TextRefusal {
    ghost from_gives = { λ x e. e ≡ Row x };

    fn from(refused: Refusal) -> TextRefusal {
        TextRefusal::Row(refused)
    }
}
