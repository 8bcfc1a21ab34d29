// What one instant of a trace shows: an event, or the fault for which it cannot be read.
ghost use Rattle.std.specs.Prelude.{◌≡◌, [], ◌∷◌, Some, Err};
ghost use Rattle.trace.specs.Readings.{fault, raised_fault, raised, outside, reading_at, shows, cause_number, cause_words, printed, Numbered};

use crate::symbols::SymbolSet;
use std::fmt;

// What happened at an instant: the symbols that hold there.
#[derive(Clone, Copy, PartialEq, Eq, Debug)]
pub struct Event {
    pub symbols: SymbolSet,
}

// Why an instant cannot be read: the cause's number, a place (for a record, a byte's offset from 0), and through how many
// layers the fault came up. Another recorder may tell any other number than those of the causes below.
#[derive(Clone, Copy, PartialEq, Eq, Debug)]
pub struct Fault {
    pub cause: u32,
    pub place: usize,
    pub layers: u8,
}

// What an instant shows.
pub type Reading = Result<Event, Fault>;

// The causes of the faults that the sources of this repository tell.
#[derive(Clone, Copy, PartialEq, Eq, Debug)]
pub enum Cause {
    // A code above 63, which names no symbol.
    BadCode,
    // A last byte that stands alone where two bytes belong together.
    CutShort,
    // A record of more than 1,024 instants.
    TooLong,
    // A segment whose first or last instant is not in the trace, or whose last comes before its first.
    BadSegment,
    // An instant that the trace does not have.
    NoInstant,
}

// A number that is no cause's.
#[derive(Clone, Copy, PartialEq, Eq, Debug)]
pub struct OtherCause(pub u32);

// The number by which a fault tells the cause.
impl From<Cause> for u32 {
    ghost from_gives = { λ cause n. n ≡ cause_number cause };

    fn from(cause: Cause) -> u32 {
        match cause {
            Cause::BadCode => 1,
            Cause::CutShort => 2,
            Cause::TooLong => 3,
            Cause::BadSegment => 4,
            Cause::NoInstant => 5,
        }
    }
}

// The cause that has a number, if one has.
impl TryFrom<u32> for Cause {
    type Error = OtherCause;

    ghost try_from_gives = { Numbered };

    fn try_from(number: u32) -> Result<Cause, OtherCause> {
        match number {
            1 => Ok(Cause::BadCode),
            2 => Ok(Cause::CutShort),
            3 => Ok(Cause::TooLong),
            4 => Ok(Cause::BadSegment),
            5 => Ok(Cause::NoInstant),
            _ => Err(OtherCause(number)),
        }
    }
}

impl Cause {
    // The fault of this cause at a place, as it is told where it arises.
    pub fn at(self, place: usize) -> Fault
        ensures { Err result ≡ fault (cause_number self) place }
    {
        Fault::new(self.into(), place)
    }
}

impl Fault {
    // A fault as it is told where it arises, under no layer.
    pub fn new(cause: u32, place: usize) -> Fault
        ensures { Err result ≡ fault cause place }
    {
        Fault {
            cause,
            place,
            layers: 0,
        }
    }

    // The fault of an instant that the trace does not have.
    pub fn outside(instant: usize) -> Fault
        ensures { Err result ≡ outside instant }
    {
        Cause::NoInstant.at(instant)
    }

    // The fault as one layer more shows it: cause and place stay, and the layers rise by one, to 255 at most.
    pub fn raised(self) -> Fault
        ensures { result ≡ raised_fault self }
    {
        Fault {
            layers: self.layers.saturating_add(1),
            ..self
        }
    }

    // The reading at an instant of a trace that is this fault and nothing else.
    pub fn alone(self, instant: usize) -> Reading
        ensures { result ≡ reading_at (Err self ∷ []) instant }
    {
        if instant == 1 {
            Err(self)
        } else {
            Err(Fault::outside(instant))
        }
    }

    // What the cause means, in words.
    pub fn words(self) -> &'static str
        ensures { result.now ≡ cause_words self.cause }
    {
        match Cause::try_from(self.cause) {
            Ok(Cause::BadCode) => "a code above 63",
            Ok(Cause::CutShort) => "a lone last byte",
            Ok(Cause::TooLong) => "more than 1,024 instants",
            Ok(Cause::BadSegment) => "a segment that is not there",
            Ok(Cause::NoInstant) => "no such instant",
            Err(_) => "a cause of the recorder's own",
        }
    }
}

// The cause by its number and in words, the place and the layers.
impl fmt::Display for Fault {
    ghost output = { λ f. Some (printed f) };

    fn fmt<W: fmt::Write>(&self, f: &mut fmt::Formatter<W>) -> fmt::Result {
        write!(
            f,
            "cause {} ({}), place {}, layers {}",
            self.cause,
            self.words(),
            self.place,
            self.layers
        )
    }
}

// The reading as one layer more shows it: an event stays, a fault is raised.
pub fn raised(reading: Reading) -> Reading
    ensures { result ≡ raised reading }
{
    reading.map_err(Fault::raised)
}

// Whether a symbol holds; none does where there is a fault.
pub fn shows(reading: &Reading, symbol: u8) -> bool
    ensures { result ≡ shows reading.now symbol }
{
    match reading {
        Ok(event) => event.symbols.contains(symbol),
        Err(_) => false,
    }
}
