// The rows and rules of a sheet, and the classes of rows.
ghost use Rattle.std.specs.Prelude.{◌≡◌, length};
ghost use Rattle.sheet.specs.Classes.{is_present, present_or_past, present_or_future, joined};
ghost use Rattle.sheet.specs.Rows.{there, separated, class_at, row_class, row_refusal, rule_there};

use crate::refusal::Refusal;

// How many rows a sheet has at most.
pub const MAX_ROWS: usize = 32;

// How many rules a sheet has at most.
pub const MAX_RULES: usize = 8;

// How many symbols there are, counted from 0.
pub const SYMBOLS: u8 = 64;

// A formula over the earlier rows of its sheet, which are counted from 0.
#[derive(Clone, Copy, Debug, Default, PartialEq, Eq)]
pub enum Row {
    #[default]
    True,
    False,
    Symbol(u8),
    Not(u8),
    And(u8, u8),
    Or(u8, u8),
    Next(u8),
    Yest(u8),
    Until(u8, u8),
    Since(u8, u8),
    Start,
    End,
}

// Where the row `activator` holds, the row `target` should hold too.
#[derive(Clone, Copy, Debug, PartialEq, Eq)]
pub struct Rule {
    pub activator: u8,
    pub target: u8,
}

// Which way a row looks along a trace: nowhere, back, ahead, or both ways.
#[derive(Clone, Copy, Debug, Default, PartialEq, Eq)]
pub enum Class {
    #[default]
    Present,
    Past,
    Future,
    Mixed,
}

impl Class {
    // Whether a row of this class looks nowhere.
    fn is_present(self) -> bool
        ensures { result ≡ is_present self }
    {
        self == Class::Present
    }

    // Whether a row of this class looks back at most: what yest and since take.
    pub fn present_or_past(self) -> bool
        ensures { result ≡ present_or_past self }
    {
        matches!(self, Class::Present | Class::Past)
    }

    // Whether a row of this class looks ahead at most: what next and until take.
    fn present_or_future(self) -> bool
        ensures { result ≡ present_or_future self }
    {
        matches!(self, Class::Present | Class::Future)
    }

    // The class of an `and` or `or` of rows of these classes.
    fn joined(self, other: Class) -> Class
        ensures { result ≡ joined self other }
    {
        if self.is_present() && other.is_present() {
            Class::Present
        } else if self.present_or_past() && other.present_or_past() {
            Class::Past
        } else if self.present_or_future() && other.present_or_future() {
            Class::Future
        } else {
            Class::Mixed
        }
    }
}

impl Row {
    // Whether the operands are among the first `count` rows, and a symbol is one.
    fn is_there(self, count: usize) -> bool
        ensures { result ≡ there count self }
    {
        match self {
            Row::True | Row::False | Row::Start | Row::End => true,
            Row::Symbol(s) => s < SYMBOLS,
            Row::Not(a) | Row::Next(a) | Row::Yest(a) => usize::from(a) < count,
            Row::And(a, b) | Row::Or(a, b) | Row::Until(a, b) | Row::Since(a, b) => {
                usize::from(a) < count && usize::from(b) < count
            }
        }
    }
}

impl Rule {
    // Whether both rows are among the first `count`.
    pub(crate) fn is_there(self, count: usize) -> bool
        ensures { result ≡ rule_there count self }
    {
        usize::from(self.activator) < count && usize::from(self.target) < count
    }
}

// The class of the row numbered `a`; one that is not there counts as present.
fn class_at(classes: &[Class], a: u8) -> Class
    ensures { result ≡ class_at classes.now a }
{
    classes
        .get(usize::from(a))
        .copied()
        .unwrap_or(Class::Present)
}

// The class of a row over rows of these classes; an operand that is not there counts as present.
pub fn class_of(classes: &[Class], row: Row) -> Class
    ensures { result ≡ row_class classes.now row }
{
    match row {
        Row::True | Row::False | Row::Symbol(_) => Class::Present,
        Row::Not(a) => class_at(classes, a),
        Row::And(a, b) | Row::Or(a, b) => class_at(classes, a).joined(class_at(classes, b)),
        Row::Next(_) | Row::Until(_, _) | Row::End => Class::Future,
        Row::Yest(_) | Row::Since(_, _) | Row::Start => Class::Past,
    }
}

// Whether the classes of a row's operands are those that its kind takes.
fn is_separated(classes: &[Class], row: Row) -> bool
    ensures { result ≡ separated classes.now row }
{
    match row {
        Row::Next(a) => class_at(classes, a).present_or_future(),
        Row::Yest(a) => class_at(classes, a).present_or_past(),
        Row::Until(a, b) => {
            class_at(classes, a).present_or_future() && class_at(classes, b).present_or_future()
        }
        Row::Since(a, b) => {
            class_at(classes, a).present_or_past() && class_at(classes, b).present_or_past()
        }
        _ => true,
    }
}

// Why a row may not follow rows of these classes, if it may not.
pub fn row_refusal(classes: &[Class], row: Row) -> Option<Refusal>
    ensures { result ≡ row_refusal classes.now row }
{
    if classes.len() >= MAX_ROWS {
        Some(Refusal::SheetFull)
    } else if !row.is_there(classes.len()) {
        Some(Refusal::BadOperand)
    } else if !is_separated(classes, row) {
        Some(Refusal::Unseparated)
    } else {
        None
    }
}
