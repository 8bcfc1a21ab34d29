// Why a row may not be added, judged from the formulas of its operands: which way each of them looks along a trace.
ghost use Rattle.std.specs.Prelude.{◌≡◌, not};
ghost use Rattle.evaluator.specs.Looks.{looks, both, looks_by, looked_through, number_of};
ghost use Rattle.sheet.specs.Formulas.{class};
ghost use Rattle.sheet.specs.Rows.{there, separated, row_refusal};
ghost use Rattle.sheet.specs.Sheets.{formula, classes_of};
ghost use Rattle.sheet.specs.declared.row.Class.TheVariants.{Present};

use crate::fold::folded;
use crate::truth::operands;
use sheet::refusal::Refusal;
use sheet::row::Row;

// How many rows there may be.
const MOST_ROWS: usize = 32;

// Whether a formula looks back, and whether it looks ahead.
#[derive(Clone, Copy)]
struct Looks {
    back: bool,
    ahead: bool,
}

impl Looks {
    // Of a formula that looks nowhere.
    fn nowhere() -> Looks
        ensures { result ≡ looks Present }
    {
        Looks {
            back: false,
            ahead: false,
        }
    }

    // The ways that either of two formulas looks.
    fn joined(self, other: Looks) -> Looks
        ensures { result ≡ both self other }
    {
        Looks {
            back: self.back || other.back,
            ahead: self.ahead || other.ahead,
        }
    }

    // Which way the formula of a row looks whose operands look these ways: as its outermost next, until, end, yest, since or start
    // does, and as all of them do that are joined by not, and, or.
    fn of_row(row: Row, a: Looks, b: Looks) -> Looks
        ensures { result ≡ looks_by row a b }
    {
        match row {
            Row::True | Row::False | Row::Symbol(_) => Looks::nowhere(),
            Row::Next(_) | Row::Until(_, _) | Row::End => Looks {
                back: false,
                ahead: true,
            },
            Row::Yest(_) | Row::Since(_, _) | Row::Start => Looks {
                back: true,
                ahead: false,
            },
            Row::Not(_) => a,
            Row::And(_, _) | Row::Or(_, _) => a.joined(b),
        }
    }
}

// The operands that say which way a row looks: those of not, and, or. Every other row looks its own way, whatever its operands are.
fn looked_through(row: Row) -> (Option<u8>, Option<u8>)
    ensures { result ≡ looked_through row }
{
    match row {
        Row::Not(_) | Row::And(_, _) | Row::Or(_, _) => operands(row),
        _ => (None, None),
    }
}

// Which way the formula of row r looks. A row that is not there looks nowhere.
fn looks_of(rows: &[Row], r: usize) -> Looks
    ensures { result ≡ looks (class (formula rows.now r)) }
{
    folded(
        rows,
        r,
        Looks::nowhere(),
        &|row| looked_through(row),
        &|row, a, b| Looks::of_row(row, a, b),
    )
}

// Whether a row's operands are among the first `count` rows, and its symbol is one.
fn has_operands(row: Row, count: usize) -> bool
    ensures { result ≡ there count row }
{
    match row {
        Row::True | Row::False | Row::Start | Row::End => true,
        Row::Symbol(s) => s <= 63,
        Row::Not(a) | Row::Next(a) | Row::Yest(a) => (a as usize) < count,
        Row::And(a, b) | Row::Or(a, b) | Row::Until(a, b) | Row::Since(a, b) => {
            (a as usize) < count && (b as usize) < count
        }
    }
}

// Whether a row that looks one way has an operand that looks the other way.
fn is_unseparated(rows: &[Row], row: Row) -> bool
    ensures { result ≡ not (separated (classes_of rows.now) row) }
{
    match row {
        Row::Next(a) => looks_of(rows, a as usize).back,
        Row::Until(a, b) => looks_of(rows, a as usize)
            .joined(looks_of(rows, b as usize))
            .back,
        Row::Yest(a) => looks_of(rows, a as usize).ahead,
        Row::Since(a, b) => looks_of(rows, a as usize)
            .joined(looks_of(rows, b as usize))
            .ahead,
        _ => false,
    }
}

// Why a row may not be added to these, if anything stands against it: there are 32, an operand is not there, or one looks the
// other way.
pub fn row_refusal(rows: &[Row], row: Row) -> Option<Refusal>
    ensures value { result ≡ row_refusal (classes_of rows.now) row }
    ensures number { number_of result ≡ number_of (row_refusal (classes_of rows.now) row) }
{
    if rows.len() >= MOST_ROWS {
        Some(Refusal::SheetFull)
    } else if !has_operands(row, rows.len()) {
        Some(Refusal::BadOperand)
    } else if is_unseparated(rows, row) {
        Some(Refusal::Unseparated)
    } else {
        None
    }
}

// The number that adding a row to these is refused by: 11 where there are 32, 12 where an operand is not there, 13 where one looks
// the other way, and 0 where the row is added. The numbers stand here, and are not asked of the sheet that is judged by them.
pub fn row_refusal_number(rows: &[Row], row: Row) -> u8
    ensures { result ≡ number_of (row_refusal (classes_of rows.now) row) }
{
    match row_refusal(rows, row) {
        None => 0,
        Some(Refusal::SheetFull) => 11,
        Some(Refusal::BadOperand) => 12,
        Some(Refusal::Unseparated) => 13,
    }
}
