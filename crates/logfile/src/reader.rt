// The log reader: a position in a file's bytes, from which it hands out one record after another.
ghost use Rattle.std.specs.Prelude.{◌≡◌, ◌≤◌, length};
ghost use Rattle.logfile.specs.Laws.{ReadingLaws};
ghost use Rattle.logfile.specs.Log.{told, found, after};

use crate::record::{BadRecord, Kind, Record};

// A reader of the file that it was lent. Its next record begins at the offset `at`.
#[derive(Drop)]
pub struct LogReader<'a> {
    file: &'a [u8],
    at: usize,
    ghost within: { at ≤ length file.now },
}

impl<'a> LogReader<'a> {
    // A reader at the file's first byte.
    pub fn new(file: &'a [u8]) -> LogReader<'a>
        ensures file { result.file.now ≡ file.now }
        ensures at { result.at ≡ 0 }
        ensures laws { ReadingLaws }
    {
        LogReader { file, at: 0 }
    }

    // The next record, or none at the file's end. After a refusal the reader stays where it is.
    pub fn next(&mut self) -> Result<Option<Record<'a>>, BadRecord>
        ensures value { told result ≡ found self.old.file.now self.old.at }
        ensures at { self.new.at ≡ after self.old.file.now self.old.at }
        ensures file { self.new.file.now ≡ self.old.file.now }
    {
        let place = self.at;
        let rest = &self.file[place..];
        if rest.is_empty() {
            return Ok(None);
        }
        let refused = BadRecord { place };
        let [0x5A, mark, high, low, after @ ..] = rest else {
            return Err(refused);
        };
        let kind = Kind::try_from(*mark).map_err(|_| refused)?;
        let len = usize::from(u16::from_be_bytes([*high, *low]));
        let body = after.get(..len).ok_or(refused)?;
        self.at = place + 4 + len;
        Ok(Some(Record { kind, body, place }))
    }
}
