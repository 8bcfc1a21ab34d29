// A draft of a sheet's rows: rows are added to it until one of them is refused, and the sheet stays
// as it is.
ghost use Rattle.std.specs.Prelude.{◌≡◌};
ghost use Rattle.sheet.specs.Sheets.{classes_of};
ghost use Rattle.text.specs.Follow.{Follow};

use arrayvec::ArrayVec;
use sheet::refusal::Refusal;
use sheet::row::{Class, MAX_ROWS, Row};

// Rows and their classes, and the first refusal among the rows that followed.
#[derive(Drop)]
pub(crate) struct Draft {
    pub(crate) rows: ArrayVec<Row, MAX_ROWS>,
    pub(crate) classes: ArrayVec<Class, MAX_ROWS>,
    pub(crate) refusal: Option<Refusal>,
    // The classes are those of the rows' formulas.
    ghost sorts: { classes.items ≡ classes_of rows.items },
    // Each row may follow the rows before it.
    ghost follow: { Follow rows.items },
}
