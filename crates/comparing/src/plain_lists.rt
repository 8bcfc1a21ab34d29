// The three layers against plain functions on lists.
use crate::expansion::{compare_first_fault, compare_source, plain_codes, plain_fault};
use crate::trial::Trial;
use bottoms::codes::Codes;
use layers::renamed::Renamed;
use layers::renaming::Renaming;
use layers::reversed::Reversed;
use layers::segment::Segment;
use std::alloc::Global;
use std::io;
use trace::reading::{Event, Fault, Reading};
use trace::source::Source;
use trace::symbols::SymbolSet;

// A reading one layer higher.
fn plain_raised(reading: Reading) -> Reading {
    match reading {
        Ok(event) => Ok(event),
        Err(fault) => Err(Fault {
            layers: if fault.layers < 255 {
                fault.layers + 1
            } else {
                255
            },
            ..fault
        }),
    }
}

// The list the other way round, one layer higher.
fn plain_reversed(heap: Global, below: &[Reading]) -> io::Result<Vec<Reading>> {
    Ok(
        below
            .iter()
            .rev()
            .map(|reading| plain_raised(*reading))
            .collect(heap)?,
    )
}

// The instants first to last of a list, one layer higher; one fault alone where it does not have them.
fn plain_segment(
    heap: Global,
    below: &[Reading],
    first: usize,
    last: usize,
) -> io::Result<Vec<Reading>> {
    if first == 0 || first > last || last > below.len() {
        return Ok(vec![in heap; plain_fault(4, first)]?);
    }
    Ok(
        below[first - 1..last]
            .iter()
            .map(|reading| plain_raised(*reading))
            .collect(heap)?,
    )
}

// Whether some symbol of a set is sent to symbol t.
fn is_image(symbols: SymbolSet, table: &[u8], t: u8) -> bool {
    (0..64u8).any(|s| symbols.contains(s) && table.get(usize::from(s)).copied() == Some(t))
}

// The set of the symbols that those of a set are sent to.
fn plain_image(symbols: SymbolSet, table: &[u8]) -> SymbolSet {
    let mut bits = 0u64;
    for t in 0..64u8 {
        if is_image(symbols, table, t) {
            bits |= 1 << t;
        }
    }
    SymbolSet::of_bits(bits)
}

// A reading with its symbols renamed, one layer higher.
fn plain_sent(reading: Reading, table: &[u8]) -> Reading {
    match reading {
        Ok(event) => Ok(Event {
            symbols: plain_image(event.symbols, table),
        }),
        fault => plain_raised(fault),
    }
}

// The list with its symbols renamed, one layer higher.
fn plain_renamed(heap: Global, below: &[Reading], table: &[u8]) -> io::Result<Vec<Reading>> {
    Ok(
        below
            .iter()
            .map(|reading| plain_sent(*reading, table))
            .collect(heap)?,
    )
}

// The table that keeps every symbol.
fn plain_table(heap: Global) -> io::Result<Vec<u8>> {
    Ok((0..64u8).collect(heap)?)
}

// Sends random symbols to random places, in a renaming and in a plain table, some of them refused.
fn send_some(trial: &mut Trial, renaming: &mut Renaming, table: &mut Vec<u8>) {
    for _ in 0..24 {
        let from = trial.random.byte(66);
        let to = trial.random.byte(67);
        let allowed = from <= 63 && to <= 64;
        trial.tally.note(renaming.send(from, to).is_ok() == allowed);
        if let (true, Some(entry)) = (allowed, table.get_mut(usize::from(from))) {
            *entry = to;
        }
    }
}

// Compares each layer, and a tower of three, on a record of codes.
fn compare_layers(trial: &mut Trial, bytes: &[u8]) -> io::Result<()> {
    let heap = trial.heap;
    let below = Codes::new(bytes);
    let plain = plain_codes(heap, bytes)?;
    compare_source(
        &Reversed { below },
        &plain_reversed(heap, &plain)?,
        &mut trial.tally,
    );
    let mut renaming = Renaming::new();
    let mut table = plain_table(heap)?;
    send_some(trial, &mut renaming, &mut table);
    let renamed = plain_renamed(heap, &plain, &table)?;
    compare_source(&Renamed { below, renaming }, &renamed, &mut trial.tally);
    let first = trial.random.below(8);
    let last = trial.random.below(12);
    let cut = plain_segment(heap, &renamed, first, last)?;
    let below = Segment {
        below: Renamed { below, renaming },
        first,
        last,
    };
    compare_source(&below, &cut, &mut trial.tally);
    let tower = Reversed { below };
    let reversed = plain_reversed(heap, &cut)?;
    compare_source(&tower, &reversed, &mut trial.tally);
    compare_first_fault(&tower, &reversed, &mut trial.tally);
    Ok(())
}

// Compares the layers on random records of codes, some of them above 63.
pub(crate) fn random_layers(trial: &mut Trial, rounds: usize) -> io::Result<()> {
    for _ in 0..rounds {
        let n = trial.random.below(12);
        let bytes = trial.bytes(n, 68)?;
        compare_layers(trial, &bytes)?;
    }
    Ok(())
}
