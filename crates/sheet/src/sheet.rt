// A sheet of rows and rules, which is well formed whenever it exists.
ghost use Rattle.std.specs.Prelude.{◌≡◌, ◌≤◌, true, [], map, length, IfOk, vec_len, vec_capacity};
ghost use Rattle.sheet.specs.Limits.{max_rows, max_rules};
ghost use Rattle.sheet.specs.Classes.{mirror_class};
ghost use Rattle.sheet.specs.Refusals.{told};
ghost use Rattle.sheet.specs.Rows.{mirror_row, row_class};
ghost use Rattle.sheet.specs.Sheets.{formed, classes_of, ruled, row_answer, rule_answer, grown};
ghost use Rattle.sheet.specs.Theorems.{WellFormed, RowAnswered, RuleAnswered, Mirrors};

use crate::mirror::mirror_all;
use crate::refusal::Refusal;
use crate::row::{Class, MAX_ROWS, MAX_RULES, Row, Rule, class_of, row_refusal};
use std::alloc::{AllocError, Global};

// Rows, the class of each, and rules over them. No sheet exists that is not well formed.
#[derive(Drop)]
pub struct Sheet {
    rows: Vec<Row>,
    classes: Vec<Class>,
    rules: Vec<Rule>,
    // Every row's operands are earlier rows, of classes that its kind takes.
    ghost shape: { formed rows.items ≡ true },
    // The classes are those of the rows' formulas.
    ghost sorts: { classes.items ≡ classes_of rows.items },
    // Every rule's rows are there.
    ghost pairs: { ruled (vec_len rows) rules.items ≡ true },
    // There are no more rows and rules than a sheet may have, and room is claimed for all of them.
    ghost few: { vec_len rows ≤ max_rows },
    ghost rows_room: { max_rows ≤ vec_capacity rows },
    ghost classes_room: { max_rows ≤ vec_capacity classes },
    ghost few_rules: { vec_len rules ≤ max_rules },
    ghost rules_room: { max_rules ≤ vec_capacity rules },
}

impl Sheet {
    // A sheet with no rows, and room for all that it may ever hold.
    pub fn new(heap: Global) -> Result<Sheet, AllocError>
        ensures { IfOk result (λ s. (s.rows.items ≡ []) × (s.classes.items ≡ []) × (s.rules.items ≡ [])) }
    {
        let rows = Vec::with_capacity(heap, MAX_ROWS)?;
        let classes = Vec::with_capacity(heap, MAX_ROWS)?;
        let rules = Vec::with_capacity(heap, MAX_RULES)?;
        Ok(Sheet {
            rows,
            classes,
            rules,
        })
    }

    // Adds a row and answers its number, or refuses and leaves the sheet as it is.
    pub fn add_row(&mut self, row: Row) -> Result<u8, Refusal>
        ensures answer { result ≡ row_answer self.old.rows.items row }
        ensures told { told result ≡ told (row_answer self.old.rows.items row) }
        ensures means { RowAnswered self.old.rows.items row result }
        ensures rows { self.new.rows.items ≡ grown result self.old.rows.items row }
        ensures classes { self.new.classes.items ≡ grown result self.old.classes.items (row_class self.old.classes.items row) }
        ensures rules { self.new.rules.items ≡ self.old.rules.items }
    {
        if let Some(refusal) = row_refusal(&self.classes, row) {
            return Err(refusal);
        }
        let class = class_of(&self.classes, row);
        let count = self.rows.len();
        self.rows.push_reserved(row);
        self.classes.push_reserved(class);
        Ok(count as u8)
    }

    // Adds a rule and answers its number, or refuses and leaves the sheet as it is.
    pub fn add_rule(&mut self, rule: Rule) -> Result<u8, Refusal>
        ensures answer { result ≡ rule_answer (vec_len self.old.rows) self.old.rules.items rule }
        ensures told { told result ≡ told (rule_answer (vec_len self.old.rows) self.old.rules.items rule) }
        ensures means { RuleAnswered (vec_len self.old.rows) self.old.rules.items rule result }
        ensures rows { self.new.rows.items ≡ self.old.rows.items }
        ensures classes { self.new.classes.items ≡ self.old.classes.items }
        ensures rules { self.new.rules.items ≡ grown result self.old.rules.items rule }
    {
        let count = self.rules.len();
        if count >= MAX_RULES {
            return Err(Refusal::SheetFull);
        }
        if !rule.is_there(self.rows.len()) {
            return Err(Refusal::BadOperand);
        }
        self.rules.push_reserved(rule);
        Ok(count as u8)
    }

    // The sheet that reads traces the other way round; rows and rules keep their places.
    pub fn mirrored(self) -> Sheet
        ensures rows { result.rows.items ≡ map mirror_row self.rows.items }
        ensures classes { result.classes.items ≡ map mirror_class self.classes.items }
        ensures rules { result.rules.items ≡ self.rules.items }
        ensures formulas { Mirrors self.rows.items result.rows.items }
    {
        let Sheet {
            mut rows,
            mut classes,
            rules,
        } = self;
        mirror_all(&mut rows);
        mirror_all(&mut classes);
        Sheet {
            rows,
            classes,
            rules,
        }
    }

    // The rows, which are well formed.
    pub fn rows(&self) -> &[Row]
        ensures value { result.now ≡ self.now.rows.items }
        ensures formed { WellFormed self.now.rows.items self.now.rules.items }
    {
        self.rows.as_slice()
    }

    // The class of each row, which is that of its formula.
    pub fn classes(&self) -> &[Class]
        ensures value { result.now ≡ self.now.classes.items }
        ensures sorts { result.now ≡ classes_of self.now.rows.items }
    {
        self.classes.as_slice()
    }

    // The rules.
    pub fn rules(&self) -> &[Rule]
        ensures value { result.now ≡ self.now.rules.items }
    {
        self.rules.as_slice()
    }
}
