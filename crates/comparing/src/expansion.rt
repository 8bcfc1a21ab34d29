// The three bottoms against the plain expansion of their records.
use crate::trial::Trial;
use bottoms::codes::Codes;
use bottoms::runs::Runs;
use bottoms::snapshots::Snapshots;
use sampling::tally::Tally;
use std::alloc::Global;
use std::io;
use trace::reading::{Event, Fault, Reading};
use trace::source::Source;
use trace::symbols::SymbolSet;
use trace::unreadable::first_unreadable;

// One instant of a record: what it shows, and where its bytes begin.
#[derive(Clone, Copy)]
struct Entry {
    reading: Reading,
    place: usize,
}

// A fault that came up through no layer.
pub(crate) fn plain_fault(cause: u32, place: usize) -> Reading {
    Err(Fault {
        cause,
        place,
        layers: 0,
    })
}

// What a code shows.
fn plain_code(code: u8, place: usize) -> Reading {
    if code > 63 {
        return plain_fault(1, place);
    }
    Ok(Event {
        symbols: SymbolSet::of_bits(1 << code),
    })
}

// The instants of a record of codes.
fn expand_codes(heap: Global, bytes: &[u8]) -> io::Result<Vec<Entry>> {
    Ok(
        bytes
            .iter()
            .enumerate()
            .map(|(place, code)| Entry {
                reading: plain_code(*code, place),
                place,
            })
            .collect(heap)?,
    )
}

// What two bytes of a record of snapshots show, or a lone one.
fn plain_snapshot(pair: &[u8], place: usize) -> Reading {
    match pair {
        [high, low] => Ok(Event {
            symbols: SymbolSet::of_bits(u64::from(*high) << 8 | u64::from(*low)),
        }),
        _ => plain_fault(2, place),
    }
}

// The instants of a record of snapshots.
fn expand_snapshots(heap: Global, bytes: &[u8]) -> io::Result<Vec<Entry>> {
    let mut out = Vec::new(heap);
    for (k, pair) in bytes.chunks(2).enumerate() {
        let place = k.saturating_mul(2);
        let reading = plain_snapshot(pair, place);
        out.push(Entry { reading, place })?;
    }
    Ok(out)
}

// Adds an entry so many times.
fn push_times(out: &mut Vec<Entry>, entry: Entry, times: u8) -> io::Result<()> {
    for _ in 0..times {
        out.push(entry)?;
    }
    Ok(())
}

// The instants of a record of runs.
fn expand_runs(heap: Global, bytes: &[u8]) -> io::Result<Vec<Entry>> {
    let mut out = Vec::new(heap);
    for (k, pair) in bytes.chunks(2).enumerate() {
        let place = k.saturating_mul(2);
        let (reading, times) = match pair {
            [code, count] => (plain_code(*code, place), *count),
            _ => (plain_fault(2, place), 1),
        };
        push_times(&mut out, Entry { reading, place }, times)?;
    }
    Ok(out)
}

// The readings of a record's instants; one fault alone where there are more than 1,024.
fn bounded(heap: Global, entries: &[Entry]) -> io::Result<Vec<Reading>> {
    if let Some(entry) = entries.get(1024) {
        return Ok(vec![in heap; plain_fault(3, entry.place)]?);
    }
    Ok(entries.iter().map(|entry| entry.reading).collect(heap)?)
}

// The reading at an instant of a plain list.
fn plain_reading(readings: &[Reading], instant: usize) -> Reading {
    match instant.checked_sub(1).and_then(|k| readings.get(k)) {
        Some(reading) => *reading,
        None => plain_fault(5, instant),
    }
}

// Compares a source with a plain list of readings: its length, and its answer at each instant and at one on either side.
pub(crate) fn compare_source<S: Source>(source: &S, readings: &[Reading], tally: &mut Tally) {
    let n = readings.len();
    tally.note(source.len() == n);
    for i in 0..=n.saturating_add(1) {
        tally.note(source.reading(i) == plain_reading(readings, i));
    }
}

// The first fault of a plain list, with its instant.
fn plain_first_fault(readings: &[Reading]) -> Option<(usize, Fault)> {
    readings.iter().enumerate().find_map(|(k, reading)| match *reading {
        Err(fault) => Some((k.saturating_add(1), fault)),
        Ok(_) => None,
    })
}

// Compares the first unreadable instant of a source with that of a plain list.
pub(crate) fn compare_first_fault<S: Source>(source: &S, readings: &[Reading], tally: &mut Tally) {
    let first = first_unreadable(source).map(|found| (found.instant, found.fault));
    tally.note(first == plain_first_fault(readings));
}

// The readings of a record of codes.
pub(crate) fn plain_codes(heap: Global, bytes: &[u8]) -> io::Result<Vec<Reading>> {
    bounded(heap, &expand_codes(heap, bytes)?)
}

// Compares the three bottoms on a record.
pub(crate) fn compare_record(heap: Global, bytes: &[u8], tally: &mut Tally) -> io::Result<()> {
    let codes = plain_codes(heap, bytes)?;
    compare_source(&Codes::new(bytes), &codes, tally);
    compare_first_fault(&Codes::new(bytes), &codes, tally);
    let snapshots = bounded(heap, &expand_snapshots(heap, bytes)?)?;
    compare_source(&Snapshots::new(bytes), &snapshots, tally);
    compare_first_fault(&Snapshots::new(bytes), &snapshots, tally);
    let runs = bounded(heap, &expand_runs(heap, bytes)?)?;
    compare_source(&Runs::new(bytes), &runs, tally);
    compare_first_fault(&Runs::new(bytes), &runs, tally);
    Ok(())
}

// Compares the bottoms on random records, whose bytes are below 70 or any.
pub(crate) fn random_records(trial: &mut Trial, rounds: usize) -> io::Result<()> {
    for round in 0..rounds {
        let n = trial.random.below(12);
        let limit = if round % 4 == 0 { 256 } else { 70 };
        let bytes = trial.bytes(n, limit)?;
        compare_record(trial.heap, &bytes, &mut trial.tally)?;
    }
    Ok(())
}
