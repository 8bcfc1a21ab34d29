// Truth on a closed trace. An instant of a trace is the set of symbols that hold there, symbol s where the bit of value 2^s is set.
ghost use Rattle.std.specs.Prelude.{◌≡◌, ◌-◌, length, slice_index, Decides};
ghost use Rattle.evaluator.specs.Quantifiers.{In, Exactly, AllIn, AllAfter, UntilAt, SinceAt};
ghost use Rattle.evaluator.specs.Rows.{HoldsAt, first_operand, second_operand};
ghost use Rattle.evaluator.specs.Truths.{WhereTrue, evaluated};
ghost use Rattle.trace.specs.Symbols.{has, bit_set, set_where};

use crate::fold::folded;
use crate::instants::Instants;
use crate::short_trace::ShortTrace;
use sheet::row::Row;
use trace::symbols::SymbolSet;

// Whether a symbol is in the set of an instant.
fn shows(symbols: u64, symbol: u8) -> bool
    ensures { result ≡ has (set_where (bit_set symbols)) symbol }
{
    SymbolSet::of_bits(symbols).contains(symbol)
}

// The numbers of a row's operands, of those that it has.
pub fn operands(row: Row) -> (Option<u8>, Option<u8>)
    ensures first { result.0 ≡ first_operand row }
    ensures second { result.1 ≡ second_operand row }
{
    match row {
        Row::True | Row::False | Row::Symbol(_) | Row::Start | Row::End => (None, None),
        Row::Not(a) | Row::Next(a) | Row::Yest(a) => (Some(a), None),
        Row::And(a, b) | Row::Or(a, b) | Row::Until(a, b) | Row::Since(a, b) => (Some(a), Some(b)),
    }
}

// Whether b holds at j, and a at every k with i <= k < j.
fn until_by(a: Instants, b: Instants, i: usize, j: usize) -> bool
    ensures { Decides result (In b j × AllIn (In a) i j) }
{
    b.has(j) && a.has_all(i, j)
}

// Whether b holds at some j from i to n, and a at every k with i <= k < j.
pub(crate) fn until_at(a: Instants, b: Instants, n: usize, i: usize) -> bool
    ensures { Decides result (UntilAt (In a) (In b) n i) }
{
    (i..=n).any(|j| until_by(a, b, i, j))
}

// Whether b holds at j, and a at every k with j < k <= i.
fn since_by(a: Instants, b: Instants, j: usize, i: usize) -> bool
    ensures { Decides result (In b j × AllAfter (In a) j i) }
{
    b.has(j) && a.has_after(j, i)
}

// Whether b holds at some j from 1 to i, and a at every k with j < k <= i.
fn since_at(a: Instants, b: Instants, i: usize) -> bool
    ensures { Decides result (SinceAt (In a) (In b) i) }
{
    (1..=i).any(|j| since_by(a, b, j, i))
}

// Whether a row holds at instant i of n, where its operands hold at the instants a and b.
pub(crate) fn holds_at(row: Row, symbols: u64, a: Instants, b: Instants, n: usize, i: usize) -> bool
    ensures { Decides result (HoldsAt row symbols (In a) (In b) n i) }
{
    match row {
        Row::True => true,
        Row::False => false,
        Row::Symbol(s) => shows(symbols, s),
        Row::Not(_) => !a.has(i),
        Row::And(_, _) => a.has(i) && b.has(i),
        Row::Or(_, _) => a.has(i) || b.has(i),
        Row::Next(_) => i < n && a.has(i + 1),
        Row::Yest(_) => i > 1 && a.has(i - 1),
        Row::Until(_, _) => until_at(a, b, n, i),
        Row::Since(_, _) => since_at(a, b, i),
        Row::Start => i == 1,
        Row::End => i == n,
    }
}

// The instants of a trace at which a row holds, where its operands hold at the instants a and b.
fn gathered(row: Row, trace: &ShortTrace, a: Instants, b: Instants) -> Instants
    ensures { Exactly result (length trace.now.instants.now) (λ i. HoldsAt row (slice_index trace.now.instants.now (i - 1)) (In a) (In b) (length trace.now.instants.now) i) }
{
    let n = trace.len();
    trace.passing(|symbols, i| holds_at(row, symbols, a, b, n, i))
}

// The instants at which row r holds, on the first 63 instants of a trace. A row that is not there holds nowhere, and so does an
// operand that is no earlier row.
pub fn truth(rows: &[Row], trace: &[u64], r: usize) -> Instants
    ensures { WhereTrue rows.now (evaluated trace.now) r result }
{
    let short = ShortTrace::of(trace);
    folded(
        rows,
        r,
        Instants::none(),
        &|row| operands(row),
        &|row, a, b| gathered(row, &short, a, b),
    )
}
