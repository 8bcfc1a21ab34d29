// What stands on a trace that may go on: where a row surely holds, and where it possibly holds, whatever comes. Between the two it
// is open. Beyond the last instant nothing is known, so there every row is open.
ghost use Rattle.std.specs.Prelude.{◌≡◌, ℕ, ◌-◌, ◌≤◌, true, false, not, length, slice_index, Decides};
ghost use Rattle.evaluator.specs.Quantifiers.{In, Exactly};
ghost use Rattle.evaluator.specs.Standing.{StandsAt, counted, WhereSure, WherePossible};
ghost use Rattle.evaluator.specs.Truths.{evaluated};

use crate::fold::folded;
use crate::instants::Instants;
use crate::short_trace::ShortTrace;
use crate::truth::{holds_at, operands, until_at};
use sheet::row::Row;

// The instants at which a row surely holds, and those at which it possibly holds.
#[derive(Clone, Copy)]
pub struct Bounds {
    pub surely: Instants,
    pub possibly: Instants,
}

impl Bounds {
    // Of a row that surely holds nowhere, and possibly nowhere.
    fn nowhere() -> Bounds
        ensures surely { (i : ℕ) → In result.surely i → ⊥ }
        ensures possibly { (i : ℕ) → In result.possibly i → ⊥ }
    {
        Bounds {
            surely: Instants::none(),
            possibly: Instants::none(),
        }
    }

    // Where the row counts as holding, what is open counting as holding or not.
    fn counting(self, open: bool) -> Instants
        ensures { result ≡ counted «open» self }
    {
        if open { self.possibly } else { self.surely }
    }
}

// Whether a row counts as holding at instant i of n, where its operands do so at a and b. What is open counts as holding or not, as
// `open` says, and so does all that lies beyond n. A not counts where its operand, with the open counted the other way, does not.
fn stands_at(row: Row, symbols: u64, a: Bounds, b: Bounds, open: bool, n: usize, i: usize) -> bool
    requires { n ≤ 63 }
    ensures { Decides result (StandsAt row symbols (In (counted «open» a)) (In (counted «open» b)) (In (counted (not «open») a)) «open» n i) }
{
    let first = a.counting(open);
    let second = b.counting(open);
    match row {
        Row::Not(_) => !a.counting(!open).has(i),
        Row::Next(_) => { if i < n { first.has(i + 1) } else { open } }
        Row::Until(_, _) => until_at(first, second, n, i) || open && first.has_all(i, n + 1),
        Row::End => open && i == n,
        _ => holds_at(row, symbols, first, second, n, i),
    }
}

// Where a row counts as holding, its operands doing so at a and b.
fn gathered(row: Row, trace: &ShortTrace, a: Bounds, b: Bounds, open: bool) -> Instants
    ensures { Exactly result (length trace.now.instants.now) (λ i. StandsAt row (slice_index trace.now.instants.now (i - 1)) (In (counted «open» a)) (In (counted «open» b)) (In (counted (not «open») a)) «open» (length trace.now.instants.now) i) }
{
    let n = trace.len();
    trace.passing(|symbols, i| stands_at(row, symbols, a, b, open, n, i))
}

// Where a row surely and where it possibly holds, its operands doing so at a and b.
fn row_bounds(row: Row, trace: &ShortTrace, a: Bounds, b: Bounds) -> Bounds
    ensures surely { Exactly result.surely (length trace.now.instants.now) (λ i. StandsAt row (slice_index trace.now.instants.now (i - 1)) (In a.surely) (In b.surely) (In a.possibly) false (length trace.now.instants.now) i) }
    ensures possibly { Exactly result.possibly (length trace.now.instants.now) (λ i. StandsAt row (slice_index trace.now.instants.now (i - 1)) (In a.possibly) (In b.possibly) (In a.surely) true (length trace.now.instants.now) i) }
{
    Bounds {
        surely: gathered(row, trace, a, b, false),
        possibly: gathered(row, trace, a, b, true),
    }
}

// Where row r surely and where it possibly holds, on the first 63 instants of a trace that may go on.
pub fn bounds_of(rows: &[Row], trace: &[u64], r: usize) -> Bounds
    ensures surely { WhereSure rows.now (evaluated trace.now) r result.surely }
    ensures possibly { WherePossible rows.now (evaluated trace.now) r result.possibly }
{
    let short = ShortTrace::of(trace);
    folded(
        rows,
        r,
        Bounds::nowhere(),
        &|row| operands(row),
        &|row, a, b| row_bounds(row, &short, a, b),
    )
}
