// One cell of a strip: what the neighbouring instant gives to a row, and the row's verdict.
ghost use Rattle.std.specs.Prelude.{◌≡◌, ◌+◌, ◌-◌, ◌*◌, ◌<◌, ◌≤◌, true, length, slice_index_or, slice_set};
ghost use Rattle.sheet.specs.Limits.{max_rows};
ghost use Rattle.sheet.specs.Rows.{there};
ghost use Rattle.label.specs.Steps.{row_verdict, near_before, near_after};
ghost use Rattle.label.specs.declared.verdict.Verdict.TheVariants.{No};

use crate::verdict::Verdict;
use sheet::row::Row;
use trace::reading::{Reading, shows};

// A row with its number on its sheet. Its operands are rows before it.
#[derive(Clone, Copy)]
pub(crate) struct PlacedRow {
    pub(crate) number: usize,
    pub(crate) row: Row,
    ghost operands: { there number row ≡ true },
}

// What the instant before instant `i` gives to a row of `m`.
pub(crate) fn before(strip: &[Verdict], i: usize, m: usize, placed: PlacedRow) -> Verdict
    requires low { 1 ≤ i }
    requires few { i ≤ 1024 }
    requires room { i * m ≤ length strip.now }
    requires rows { m ≤ max_rows }
    requires within { placed.number < m }
    ensures { result ≡ near_before (λ q. slice_index_or strip.now ((i - 2) * m + q) No) i placed.number placed.row }
{
    match placed.row {
        Row::Yest(a) if i > 1 => strip[(i - 2) * m + a as usize],
        Row::Since(_, _) if i > 1 => strip[(i - 2) * m + placed.number],
        Row::Start if i == 1 => Verdict::Yes,
        _ => Verdict::No,
    }
}

// What the instant after instant `i` of `n` gives to a row of `m`; `beyond` stands after the last.
pub(crate) fn later(
    strip: &[Verdict],
    beyond: Verdict,
    n: usize,
    i: usize,
    m: usize,
    placed: PlacedRow,
) -> Verdict
    requires low { 1 ≤ i }
    requires high { i ≤ n }
    requires few { n ≤ 1024 }
    requires room { n * m ≤ length strip.now }
    requires rows { m ≤ max_rows }
    requires within { placed.number < m }
    ensures { result ≡ near_after (λ q. slice_index_or strip.now (i * m + q) No) beyond n i placed.number placed.row }
{
    match placed.row {
        Row::Next(a) if i < n => strip[i * m + a as usize],
        Row::Until(_, _) if i < n => strip[i * m + placed.number],
        Row::Next(_) | Row::Until(_, _) => beyond,
        Row::End if i == n => beyond.not(),
        _ => Verdict::No,
    }
}

// Writes the cell of a row among the cells of one instant, which are all that it is lent.
pub(crate) fn label_row(here: &mut [Verdict], placed: PlacedRow, reading: &Reading, near: Verdict)
    requires { placed.number < length here.old }
    ensures { here.new ≡ slice_set here.old placed.number (row_verdict placed.row reading.now (λ q. slice_index_or here.old q No) near) }
{
    here[placed.number] = match placed.row {
        Row::True => Verdict::Yes,
        Row::False => Verdict::No,
        Row::Symbol(s) => Verdict::from(shows(reading, s)),
        Row::Not(a) => here[a as usize].not(),
        Row::And(a, b) => here[a as usize].and(here[b as usize]),
        Row::Or(a, b) => here[a as usize].or(here[b as usize]),
        Row::Until(a, b) | Row::Since(a, b) => { here[b as usize].or(here[a as usize].and(near)) }
        Row::Next(_) | Row::Yest(_) | Row::Start | Row::End => near,
    };
}
