// Traces as plain lists: at each instant the set of the symbols that hold, symbol s by the bit of value 2^s.
ghost use Rattle.std.specs.Prelude.{◌≡◌, ◌<◌, IfOk};
ghost use Rattle.sampling.specs.Lists.{Each, snapshots};

use crate::random::Random;
use std::alloc::Global;
use std::io;

// Random instants, each with some of the symbols 0 to 3.
pub fn random_events(heap: Global, random: &mut Random, n: usize) -> io::Result<Vec<u64>>
    ensures { IfOk result (λ v. Each (λ x. x < 16) n v.items) }
{
    let mut events = Vec::new(heap);
    for _k in 0..n {
        events.push(random.byte(16) as u64)?;
    }
    Ok(events)
}

// The record of snapshots that shows these instants.
pub fn snapshot_bytes(heap: Global, events: &[u64]) -> io::Result<Vec<u8>>
    ensures { IfOk result (λ v. v.items ≡ snapshots events.now) }
{
    let mut bytes = Vec::new(heap);
    for symbols in events {
        bytes.push((*symbols / 256 % 256) as u8)?;
        bytes.push((*symbols % 256) as u8)?;
    }
    Ok(bytes)
}
