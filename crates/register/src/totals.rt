// What a register adds up: a sheet, and each rule's figures over the traces added so far.
ghost use Rattle.std.specs.Prelude.{◌≡◌, ◌*◌, ◌≤◌, vec_len};
ghost use Rattle.register.specs.Bounds.{Bounded};
ghost use Rattle.register.specs.Limits.{max_traces, max_instants};

use crate::figures::Figures;
use sheet::sheet::Sheet;

pub mod adds;
pub mod makes;

// How many traces a register adds at most.
pub(crate) const MAX_TRACES: u64 = 1_000_000;

// A sheet with the sums over the traces added. The sums are within what the numbers of traces and instants allow, so that one
// more trace never overflows them.
#[derive(Drop)]
pub struct Totals {
    pub(crate) sheet: Sheet,
    pub(crate) traces: u64,
    pub(crate) instants: u64,
    pub(crate) figures: Vec<Figures>,
    // There are figures for each rule.
    ghost level: { vec_len figures ≡ vec_len sheet.rules },
    ghost few: { traces ≤ max_traces },
    ghost short: { instants ≤ max_instants * traces },
    ghost bounded: { Bounded traces instants figures.items },
}
