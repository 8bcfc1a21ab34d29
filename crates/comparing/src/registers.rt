// The register, and the mirrored register on the reversed traces, against figures that are counted by the evaluator.
use crate::copies::same_sheet;
use crate::labels::CELLS;
use crate::trial::Trial;
use bottoms::snapshots::Snapshots;
use evaluator::figures::{RuleCount, count_rule};
use evaluator::truth::truth;
use label::verdict::Verdict;
use layers::reversed::Reversed;
use register::figures::{Figures, Told};
use register::refusal::Refusal;
use register::register::Register;
use register::room::Room;
use sampling::events::snapshot_bytes;
use sampling::random::Random;
use sampling::tally::Tally;
use sheet::row::{Row, Rule};
use sheet::sheet::Sheet;
use std::alloc::Global;
use std::io;
use trace::source::Source;

// The figures of a rule over these traces.
fn plain_figures(rows: &[Row], traces: &[Vec<u64>], rule: Rule) -> RuleCount {
    let mut sum = RuleCount::zero();
    for events in traces {
        let activator = truth(rows, events, usize::from(rule.activator));
        let target = truth(rows, events, usize::from(rule.target));
        sum = sum.plus(count_rule(activator, target, events.len()));
    }
    sum
}

// How many instants these traces have.
fn plain_instants(traces: &[Vec<u64>]) -> u64 {
    traces.iter().fold(0u64, |sum, events| sum.saturating_add(events.len() as u64))
}

// The figures that a register tells, as the evaluator counts them.
fn as_counted(f: Figures) -> RuleCount {
    RuleCount {
        both: f.both,
        act: f.act,
        tgt: f.tgt,
        none: f.none,
        triggered: f.triggered,
        degree: f.degrees,
    }
}

// Whether the support and the confidence that a register tells are the pairs that they should be, or absent.
fn same_pairs(told: Told, count: RuleCount, instants: u64) -> bool {
    let held = count.both.saturating_add(count.act);
    let support = (instants > 0).then_some((count.both, instants));
    let confidence = (held > 0).then_some((count.both, held));
    told.support == support && told.confidence == confidence
}

// Compares what a register tells of each rule with the figures over these traces; one rule more is refused.
pub(crate) fn compare_read(
    register: &Register,
    sheet: &Sheet,
    traces: &[Vec<u64>],
    tally: &mut Tally,
) {
    let instants = plain_instants(traces);
    for (k, rule) in sheet.rules().iter().enumerate() {
        let count = plain_figures(sheet.rows(), traces, *rule);
        match register.read(k) {
            Ok(told) => {
                tally.note(as_counted(told.figures) == count);
                tally.note(same_pairs(told, count, instants));
                tally.note(told.traces == traces.len() as u64 && told.instants == instants);
            }
            Err(_) => tally.note(false),
        }
    }
    match register.read(sheet.rules().len()) {
        Ok(_) => tally.note(false),
        Err(refusal) => tally.note(refusal.number() == 10),
    }
}

// The number of instants, or of the refusal.
pub(crate) fn answered(answer: Result<usize, Refusal>) -> Result<usize, u8> {
    answer.map_err(|refusal| refusal.number())
}

// What taking in a trace of n instants should answer, with so many rows and cells.
fn plain_answer(n: usize, faulty: bool, rows: usize, cells: usize) -> Result<usize, u8> {
    if n == 0 {
        Err(1)
    } else if faulty {
        Err(2)
    } else if cells < n.saturating_mul(rows) {
        Err(3)
    } else {
        Ok(n)
    }
}

// Takes in the trace behind a source, with a strip of so many cells.
fn take<S: Source>(register: &mut Register, source: &S, cells: usize) -> Result<usize, u8> {
    let mut strip = [Verdict::No; CELLS];
    let end = cells.min(CELLS);
    answered(register.take_in(source, &mut strip[0..end]))
}

// A number of cells: just enough for n instants and so many rows, one fewer, or plenty.
fn some_cells(random: &mut Random, n: usize, rows: usize) -> usize {
    let just = n.saturating_mul(rows);
    match random.below(4) {
        0 => just,
        1 => just.saturating_sub(1),
        _ => CELLS,
    }
}

// Two registers on one sheet, the second mirrored, and the traces that they should have added.
#[derive(Drop)]
struct Pair {
    forth: Register,
    back: Register,
    traces: Vec<Vec<u64>>,
}

impl Pair {
    // Two registers that have added nothing.
    fn new(heap: Global, sheet: &Sheet) -> io::Result<Pair> {
        Ok(Pair {
            forth: Register::new(Room::new(heap)?, same_sheet(heap, sheet)?, 7),
            back: Register::mirrored(Room::new(heap)?, same_sheet(heap, sheet)?, 8),
            traces: Vec::new(heap),
        })
    }

    // Takes a random trace into the first register and, reversed, into the mirrored one, and compares the answers.
    fn take_one(&mut self, trial: &mut Trial, rows: usize) -> io::Result<()> {
        let n = trial.random.below(8);
        let events = trial.events(n)?;
        let mut bytes = snapshot_bytes(trial.heap, &events)?;
        let faulty = trial.random.below(6) == 0;
        if faulty {
            bytes.push(1)?;
        }
        let cells = some_cells(&mut trial.random, n, rows);
        let expected = plain_answer(bytes.len().div_ceil(2), faulty, rows, cells);
        let below = Snapshots::new(&bytes);
        trial
            .tally
            .note(take(&mut self.forth, &below, cells) == expected);
        trial.tally.note(take(&mut self.back, &Reversed { below }, cells) == expected);
        if expected.is_ok() {
            self.traces.push(events)?;
        }
        Ok(())
    }

    // Compares what both registers tell with the figures over the traces.
    fn compare(&self, sheet: &Sheet, tally: &mut Tally) {
        compare_read(&self.forth, sheet, &self.traces, tally);
        compare_read(&self.back, sheet, &self.traces, tally);
    }
}

// Compares both registers on one random sheet and some traces.
fn compare_pair(trial: &mut Trial) -> io::Result<()> {
    let sheet = trial.sheet()?;
    let mut pair = Pair::new(trial.heap, &sheet)?;
    for _ in 0..6 {
        pair.take_one(trial, sheet.rows().len())?;
        pair.compare(&sheet, &mut trial.tally);
    }
    Ok(())
}

// Compares registers on random sheets and traces, blank, unreadable and short of cells among them.
pub(crate) fn random_registers(trial: &mut Trial, rounds: usize) -> io::Result<()> {
    for _ in 0..rounds {
        compare_pair(trial)?;
    }
    Ok(())
}
