// Why a call on a register is refused.
ghost use Rattle.std.specs.Prelude.{◌≡◌, Some};
ghost use Rattle.register.specs.Refusals.{code, spelling, printed};
ghost use Rattle.register.specs.declared.refusal.Refusal.TheVariants.{ShortStrip};

use std::fmt;
use trace::unreadable::UnreadableInstant;

// What stands in the way of a call.
#[derive(Clone, Copy, PartialEq, Eq, Debug)]
pub enum Refusal {
    // The trace has no instant.
    Blank,
    // An instant cannot be read: the first one, with its fault whole.
    Unreadable(UnreadableInstant),
    // The strip has fewer cells than the trace's instants times the sheet's rows.
    ShortStrip,
    // All the traces that there may be are added.
    Full,
    // A trace is open.
    AlreadyOpen,
    // The slip has another mark, or no trace is open.
    WrongSlip,
    // The code names no symbol.
    NoCode,
    // The open trace has all the instants that it may have.
    Long,
    // The instant is not noted.
    NoInstant,
    // The sheet has no such rule.
    NoRule,
}

impl Refusal {
    // The number that the refusal is told by.
    pub fn number(self) -> u8
        ensures { result ≡ (code self).number }
    {
        match self {
            Refusal::Blank => 1,
            Refusal::Unreadable(_) => 2,
            Refusal::ShortStrip => 3,
            Refusal::Full => 4,
            Refusal::AlreadyOpen => 5,
            Refusal::WrongSlip => 6,
            Refusal::NoCode => 7,
            Refusal::Long => 8,
            Refusal::NoInstant => 9,
            Refusal::NoRule => 10,
        }
    }

    // The words that the refusal is told by.
    pub fn word(self) -> &'static str
        ensures { result.now ≡ spelling self }
    {
        match self {
            Refusal::Blank => "blank",
            Refusal::Unreadable(_) => "unreadable",
            Refusal::ShortStrip => "short strip",
            Refusal::Full => "full",
            Refusal::AlreadyOpen => "already open",
            Refusal::WrongSlip => "wrong slip",
            Refusal::NoCode => "no code",
            Refusal::Long => "long",
            Refusal::NoInstant => "no instant",
            Refusal::NoRule => "no rule",
        }
    }
}

// The number and the words, as they are printed.
impl fmt::Display for Refusal {
    ghost output = { λ x. Some (printed x) };

    fn fmt<W: fmt::Write>(&self, f: &mut fmt::Formatter<W>) -> fmt::Result {
        write!(f, "{}, {}", self.number(), self.word())
    }
}

impl From<label::refusal::Refusal> for Refusal {
    ghost from_gives = { λ _ refusal. refusal ≡ ShortStrip };

    // Labelling is refused for a short strip alone.
    fn from(refusal: label::refusal::Refusal) -> Refusal {
        match refusal {
            label::refusal::Refusal::ShortStrip => Refusal::ShortStrip,
        }
    }
}
