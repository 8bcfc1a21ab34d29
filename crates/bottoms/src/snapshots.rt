// A record of snapshots: two bytes, the high one first, are an instant; symbol k holds where the bit of value 2^k is set.
ghost use Rattle.std.specs.Prelude.{◌≡◌, length};
ghost use Rattle.bottoms.specs.Records.{snapshots, snapshot_reading};

use crate::record::{Layout, Record};
use trace::reading::{Cause, Event, Reading};
use trace::source::MAX_INSTANTS;
use trace::symbols::SymbolSet;

// The layout of snapshots.
#[derive(Clone, Copy)]
pub struct SnapshotLayout;

// The trace of a record of snapshots.
pub type Snapshots<'a> = Record<'a, SnapshotLayout>;

// How many instants the bytes hold, a lone last byte counted as one.
fn count(bytes: &[u8]) -> usize
    ensures { result ≡ length (snapshots 0 bytes.now) }
{
    bytes.len().div_ceil(2)
}

// What the two bytes of a snapshot show.
fn snapshot_reading(high: u8, low: u8) -> Reading
    ensures { result ≡ snapshot_reading high low }
{
    Ok(Event {
        symbols: SymbolSet::of_bits(u64::from(u16::from_be_bytes([high, low]))),
    })
}

// The instants of snapshots: each two bytes are one; a last byte alone is a fault.
impl Layout for SnapshotLayout {
    ghost instants = { snapshots 0 };

    fn extent(bytes: &[u8]) -> Result<usize, usize> {
        let n = count(bytes);
        if n > MAX_INSTANTS {
            Err(2 * MAX_INSTANTS)
        } else {
            Ok(n)
        }
    }

    fn shown(bytes: &[u8], index: usize) -> Option<Reading> {
        let (pairs, lone) = bytes.as_chunks::<2>();
        if let Some(pair) = pairs.get(index) {
            return Some(snapshot_reading(pair[0], pair[1]));
        }
        if index == pairs.len() && !lone.is_empty() {
            Some(Err(Cause::CutShort.at(2 * index)))
        } else {
            None
        }
    }
}
