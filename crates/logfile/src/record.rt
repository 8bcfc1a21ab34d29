// What a log reader hands out: a record, or the refusal of one.
ghost use Rattle.std.specs.Prelude.{◌≡◌, ◌++◌, Some, codes, decimal};
ghost use Rattle.logfile.specs.Log.{Names};
ghost use Rattle.logfile.specs.Refusals.{telling};

use std::error::Error;
use std::fmt;

// What a record's body holds.
#[derive(Clone, Copy, PartialEq, Debug)]
pub enum Kind {
    Codes,
    Snapshots,
    Runs,
}

// A byte that ends no mark of a record.
#[derive(Clone, Copy, PartialEq, Debug)]
pub struct UnknownKind(pub u8);

// The kind of record by the second byte of its mark.
impl TryFrom<u8> for Kind {
    type Error = UnknownKind;

    ghost try_from_gives = { Names };

    fn try_from(mark: u8) -> Result<Kind, UnknownKind> {
        match mark {
            1 => Ok(Kind::Codes),
            2 => Ok(Kind::Snapshots),
            3 => Ok(Kind::Runs),
            _ => Err(UnknownKind(mark)),
        }
    }
}

// A record, as the part of the file that it came from. `place` is the offset of its first byte,
// and its body begins four bytes later.
#[derive(Clone, Copy)]
pub struct Record<'a> {
    pub kind: Kind,
    pub body: &'a [u8],
    pub place: usize,
}

// The record whose first byte is at `place` has an unknown mark or is cut short.
#[derive(Clone, Copy, Debug)]
pub struct BadRecord {
    pub place: usize,
}

impl BadRecord {
    // The number of this refusal.
    pub fn number(self) -> u8
        ensures { result ≡ (telling self).number }
    {
        16
    }

    // The word for this refusal.
    pub fn word(self) -> &'static str
        ensures { result.now ≡ (telling self).word }
    {
        "bad record"
    }
}

// The number, and then the word.
impl fmt::Display for BadRecord {
    ghost output = { λ e. Some (decimal (telling e).number ++ codes ", " ++ (telling e).word) };

    fn fmt<W: fmt::Write>(&self, f: &mut fmt::Formatter<W>) -> fmt::Result {
        let number = self.number();
        let word = self.word();
        write!(f, "{number}, {word}")
    }
}

impl Error for BadRecord {}
