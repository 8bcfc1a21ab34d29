// The comparisons in the order in which a program makes them: everything, or one of two parts. Each begins at the start of the
// generator, and prints how many comparisons of each kind agreed.
use crate::edge_records::edge_records;
use crate::edge_registers::{edge_registers, edge_strips};
use crate::edge_texts::{edge_sheet, edge_texts};
use crate::expansion::random_records;
use crate::labels::settled_labels;
use crate::live::live_traces;
use crate::plain_lists::random_layers;
use crate::registers::random_registers;
use crate::rows::random_additions;
use crate::standing::standing_labels;
use crate::texts::random_texts;
use crate::trial::Trial;
use sampling::sheets::SymbolDraw;
use std::io;

// Compares the sources with plain lists, and the adding of rows with a judgement of the formulas that they stand for.
fn compare_sources(rt: &HostRuntime, trial: &mut Trial) -> io::Result<()> {
    random_records(trial, 300)?;
    trial.tell(rt, "bottoms and plain expansion")?;
    random_layers(trial, 500)?;
    trial.tell(rt, "layers and plain lists")?;
    random_additions(trial, 100)?;
    trial.tell(rt, "rows added or refused, and which way formulas look")
}

// Compares labels with the evaluator, and the registers with figures counted by it.
fn compare_labels(rt: &HostRuntime, trial: &mut Trial) -> io::Result<()> {
    settled_labels(trial, 1000)?;
    trial.tell(rt, "settled labels and truth")?;
    let later = standing_labels(trial, 500)?;
    trial.tell(rt, "standing labels and what surely or possibly holds")?;
    trial.tell_apart(rt, "standing yes and no, and truth on continuations", later)?;
    random_registers(trial, 400)?;
    trial.tell(rt, "registers, also mirrored, and counted figures")?;
    live_traces(trial, 300)?;
    trial.tell(rt, "live traces, and what surely or possibly holds")
}

// Compares rule texts with the rules that they write, and the longest records with plain lists.
fn compare_rule_texts(rt: &HostRuntime, trial: &mut Trial) -> io::Result<()> {
    let changes = random_texts(trial, 1000)?;
    trial.tell(rt, "rule texts and the rules that they write")?;
    trial.tell_apart(rt, "rule texts with one byte changed", changes)?;
    edge_records(trial)?;
    trial.tell(rt, "records of 1,024 instants and one more")
}

// The part that needs no labels, on rows for each of which a symbol is drawn.
pub fn sources(rt: &HostRuntime) -> io::Result<()> {
    let mut trial = Trial::new(rt.alloc(), SymbolDraw::Always);
    compare_sources(rt, &mut trial)?;
    compare_rule_texts(rt, &mut trial)?;
    edge_texts(&mut trial)?;
    edge_sheet(&mut trial)?;
    trial.tell(rt, "texts and sheets at their limits")?;
    trial.tell_all(rt)
}

// The part of labels and registers, on such rows too.
pub fn labels(rt: &HostRuntime) -> io::Result<()> {
    let mut trial = Trial::new(rt.alloc(), SymbolDraw::Always);
    compare_labels(rt, &mut trial)?;
    edge_strips(&mut trial)?;
    edge_registers(&mut trial)?;
    trial.tell(rt, "strips and registers at their limits")?;
    trial.tell_all(rt)
}

// Everything in one run, on rows of which the symbol is drawn only where one is needed.
pub fn everything(rt: &HostRuntime) -> io::Result<()> {
    let mut trial = Trial::new(rt.alloc(), SymbolDraw::WhereNeeded);
    compare_sources(rt, &mut trial)?;
    compare_labels(rt, &mut trial)?;
    compare_rule_texts(rt, &mut trial)?;
    edge_texts(&mut trial)?;
    edge_sheet(&mut trial)?;
    edge_strips(&mut trial)?;
    edge_registers(&mut trial)?;
    trial.tell(rt, "texts, sheets, strips and registers at their limits")?;
    trial.tell_all(rt)
}
