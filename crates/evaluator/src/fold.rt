// The fold over the formula of a row.
ghost use Rattle.std.specs.Prelude.{length, Some};
ghost use Rattle.evaluator.specs.Folds.{Folded};

use sheet::row::Row;

// The value of a row's formula: `of_row` gives it from the row and from the values of its two parts, the operands whose numbers
// `parts` gives. They are looked for among the rows before the row; one that is not there, or for which there is no number, has the
// value `absent`, and its formula is not looked at.
pub(crate) fn folded<T: Copy, P: Fn(Row) -> (Option<u8>, Option<u8>), F: Fn(Row, T, T) -> T>(
    rows: &[Row],
    number: usize,
    absent: T,
    parts: &P,
    of_row: &F,
) -> T
    requires parts { P.IsAlwaysCallable parts.now }
    requires of_row { F.IsAlwaysCallable of_row.now }
    ensures { Folded (P.post parts.now) (F.post of_row.now) absent rows.now (Some number) result }
{
    if number >= rows.len() {
        return absent;
    }
    let before = &rows[0..number];
    let (first, second) = parts(rows[number]);
    let a = match first {
        Some(a) => folded(before, usize::from(a), absent, parts, of_row),
        None => absent,
    };
    let b = match second {
        Some(b) => folded(before, usize::from(b), absent, parts, of_row),
        None => absent,
    };
    of_row(rows[number], a, b)
}
