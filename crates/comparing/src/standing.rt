// Standing labels against the evaluator: each is what surely and possibly holds, and a yes or no is the truth on continuations.
use crate::labels::{CELLS, compare_row};
use crate::trial::Trial;
use bottoms::snapshots::Snapshots;
use evaluator::instants::Instants;
use evaluator::standing::bounds_of;
use evaluator::truth::truth;
use label::labelling::stand;
use label::verdict::Verdict;
use sampling::events::snapshot_bytes;
use sampling::random::Random;
use sampling::tally::Tally;
use sheet::row::Row;
use sheet::sheet::Sheet;
use std::alloc::Global;
use std::io;
use trace::source::Source;

// How many continuations are tried.
const CONTINUATIONS: usize = 24;

// Adds random instants to a trace.
fn add_random(random: &mut Random, events: &mut Vec<u64>, times: usize) -> io::Result<()> {
    for _ in 0..times {
        events.push(u64::from(random.byte(16)))?;
    }
    Ok(())
}

// The trace with a continuation: none, one instant, two instants, each with some of the symbols 0 and 1, or three random instants.
fn continued(
    heap: Global,
    events: &[u64],
    choice: usize,
    random: &mut Random,
) -> io::Result<Vec<u64>> {
    let mut out = events.to_vec(heap)?;
    if choice > 20 {
        add_random(random, &mut out, 3)?;
        return Ok(out);
    }
    if choice > 4 {
        out.push((choice / 4 & 3) as u64)?;
    }
    if choice > 0 {
        out.push((choice & 3) as u64)?;
    }
    Ok(out)
}

// Compares the standing labels of a source with what surely and possibly holds at its instants.
fn compare_bounds(strip: &[Verdict], rows: &[Row], events: &[u64], tally: &mut Tally) {
    for r in 0..rows.len() {
        let bounds = bounds_of(rows, events, r);
        compare_row(strip, rows.len(), r, events.len(), bounds, tally);
    }
}

// Compares the yes and no of row r of m at the instants 1 to n with where it holds on a continuation.
fn compare_final_row(
    strip: &[Verdict],
    m: usize,
    r: usize,
    n: usize,
    held: Instants,
    tally: &mut Tally,
) {
    let mut instants = strip.chunks(m.max(1));
    for i in 1..=n {
        match instants.next().and_then(|cells| cells.get(r)) {
            Some(Verdict::Yes) => tally.note(held.has(i)),
            Some(Verdict::No) => tally.note(!held.has(i)),
            Some(Verdict::Open) => {}
            None => tally.note(false),
        }
    }
}

// Compares the yes and no of every row at the instants 1 to n with the truth on a continuation.
fn compare_final(strip: &[Verdict], rows: &[Row], n: usize, longer: &[u64], tally: &mut Tally) {
    for r in 0..rows.len() {
        let held = truth(rows, longer, r);
        compare_final_row(strip, rows.len(), r, n, held, tally);
    }
}

// Compares the yes and no of a strip with the truth on continuations.
fn compare_continued(
    trial: &mut Trial,
    strip: &[Verdict],
    rows: &[Row],
    events: &[u64],
    later: &mut Tally,
) -> io::Result<()> {
    for choice in 0..CONTINUATIONS {
        let longer = continued(trial.heap, events, choice, &mut trial.random)?;
        compare_final(strip, rows, events.len(), &longer, later);
    }
    Ok(())
}

// Compares standing labels on random sheets and traces: with the bounds, and then, counted apart, with the truth on continuations.
pub(crate) fn standing_labels(trial: &mut Trial, rounds: usize) -> io::Result<Tally> {
    let mut later = Tally::new();
    for _ in 0..rounds {
        let sheet = trial.sheet()?;
        let n = trial.random.below(7);
        let events = trial.events(n)?;
        let bytes = snapshot_bytes(trial.heap, &events)?;
        let mut strip = [Verdict::No; CELLS];
        let answer = stand(&sheet, &Snapshots::new(&bytes), &mut strip);
        trial.tally.note(matches!(answer, Ok(count) if count == n));
        compare_bounds(&strip, sheet.rows(), &events, &mut trial.tally);
        compare_continued(trial, &strip, sheet.rows(), &events, &mut later)?;
    }
    Ok(later)
}
