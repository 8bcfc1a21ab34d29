// Settled labels against truth by the evaluator.
ghost use Rattle.std.specs.Prelude.{◌≡◌, reverse, IfOk};

use crate::trial::Trial;
use bottoms::snapshots::Snapshots;
use evaluator::standing::Bounds;
use evaluator::truth::truth;
use label::labelling::settle;
use label::verdict::Verdict;
use layers::reversed::Reversed;
use layers::segment::Segment;
use sampling::events::snapshot_bytes;
use sampling::tally::Tally;
use sheet::sheet::Sheet;
use std::alloc::Global;
use std::io;
use trace::source::Source;

// How many cells the strips of these comparisons have.
pub(crate) const CELLS: usize = 1024;

// The verdict that a row should have at an instant.
fn expected(bounds: Bounds, instant: usize) -> Verdict {
    if bounds.surely.has(instant) {
        Verdict::Yes
    } else if bounds.possibly.has(instant) {
        Verdict::Open
    } else {
        Verdict::No
    }
}

// Whether a verdict is the one that a row should have at an instant.
pub(crate) fn agrees(verdict: Verdict, bounds: Bounds, instant: usize) -> bool {
    verdict == expected(bounds, instant)
}

// Compares the cells of row r of m at the instants 1 to n with what they should be.
pub(crate) fn compare_row(
    strip: &[Verdict],
    m: usize,
    r: usize,
    n: usize,
    bounds: Bounds,
    tally: &mut Tally,
) {
    let mut instants = strip.chunks(m.max(1));
    for i in 1..=n {
        let cell = instants.next().and_then(|cells| cells.get(r));
        tally.note(cell.is_some_and(|verdict| agrees(*verdict, bounds, i)));
    }
}

// Compares the settled labels of a source with the truth on its instants.
fn compare_settled<S: Source>(sheet: &Sheet, source: &S, events: &[u64], tally: &mut Tally) {
    let n = events.len();
    let rows = sheet.rows();
    let mut strip = [Verdict::Open; CELLS];
    tally.note(matches!(settle(sheet, source, &mut strip), Ok(count) if count == n));
    for r in 0..rows.len() {
        let surely = truth(rows, events, r);
        let possibly = surely;
        compare_row(&strip, rows.len(), r, n, Bounds { surely, possibly }, tally);
    }
}

// The instants the other way round.
fn backwards(heap: Global, events: &[u64]) -> io::Result<Vec<u64>>
    ensures { IfOk result (λ v. v.items ≡ reverse events.now) }
{
    Ok(events.iter().rev().copied().collect(heap)?)
}

// Compares the settled labels of a part of a trace with the truth on that part alone, where start and end are its own.
fn compare_part(trial: &mut Trial, sheet: &Sheet, bytes: &[u8], events: &[u64]) -> io::Result<()> {
    let n = events.len();
    let first = trial.random.below(n).saturating_add(1);
    let rest = n.saturating_sub(first).saturating_add(1);
    let last = first.saturating_add(trial.random.below(rest));
    let below = Snapshots::new(bytes);
    let source = Segment { below, first, last };
    let part: Vec<u64> = events
        .iter()
        .take(last)
        .skip(first.saturating_sub(1))
        .copied()
        .collect(trial.heap)?;
    if n > 0 {
        compare_settled(sheet, &source, &part, &mut trial.tally);
    }
    Ok(())
}

// Compares settled labels of a random trace, which may have a last instant that cannot be read, on the trace reversed, and on a part.
fn compare_trace(trial: &mut Trial, sheet: &Sheet) -> io::Result<()> {
    let n = trial.random.below(9);
    let mut events = trial.events(n)?;
    let mut bytes = snapshot_bytes(trial.heap, &events)?;
    if trial.random.below(8) == 0 {
        bytes.push(trial.random.byte(256))?;
        events.push(0)?;
    }
    let below = Snapshots::new(&bytes);
    compare_settled(sheet, &below, &events, &mut trial.tally);
    let reversed = backwards(trial.heap, &events)?;
    compare_settled(sheet, &Reversed { below }, &reversed, &mut trial.tally);
    compare_part(trial, sheet, &bytes, &events)
}

// Compares settled labels on random sheets and traces.
pub(crate) fn settled_labels(trial: &mut Trial, rounds: usize) -> io::Result<()> {
    for _ in 0..rounds {
        let sheet = trial.sheet()?;
        compare_trace(trial, &sheet)?;
    }
    Ok(())
}
