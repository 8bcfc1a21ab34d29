// Making a draft of a sheet, adding rows to it, and bringing its rows onto the sheet.
ghost use Rattle.std.specs.Prelude.{◌≡◌, take, vec_len};
ghost use Rattle.text.specs.Drafts.{drafted, fresh, put_row};

use crate::draft::Draft;
use arrayvec::ArrayVec;
use sheet::row::{Row, class_of, row_refusal};
use sheet::sheet::Sheet;

impl Draft {
    // A draft of the rows of a sheet.
    pub(crate) fn of(sheet: &Sheet) -> Draft
        ensures { drafted result ≡ fresh sheet.now.rows.items }
    {
        let mut rows = ArrayVec::new();
        rows.try_extend_from_slice(sheet.rows()).unwrap();
        let mut classes = ArrayVec::new();
        classes.try_extend_from_slice(sheet.classes()).unwrap();
        Draft {
            rows,
            classes,
            refusal: None,
        }
    }

    // Adds a row, unless one was refused before, and answers its number.
    pub(crate) fn put(&mut self, row: Row) -> u8
        ensures state { drafted self.new ≡ (put_row (drafted self.old) row).0 }
        ensures number { result ≡ (put_row (drafted self.old) row).1 }
    {
        if self.refusal.is_some() {
            return 0;
        }
        if let Some(refusal) = row_refusal(&self.classes, row) {
            self.refusal = Some(refusal);
            return 0;
        }
        let class = class_of(&self.classes, row);
        let number = self.rows.len();
        self.rows.push(row);
        self.classes.push(class);
        number as u8
    }

    // Adds to a sheet the rows that the draft has more than it.
    pub(crate) fn bring_onto(&self, sheet: &mut Sheet)
        requires { take (vec_len sheet.old.rows) (drafted self.now).rows ≡ sheet.old.rows.items }
        ensures rows { sheet.new.rows.items ≡ (drafted self.now).rows }
        ensures rules { sheet.new.rules.items ≡ sheet.old.rules.items }
    {
        let there = sheet.rows().len();
        for row in &self.rows[there..] {
            let _ = sheet.add_row(*row);
        }
    }
}
