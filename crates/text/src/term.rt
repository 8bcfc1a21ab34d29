// The words of the grammar, and the rows that they stand for.
ghost use Rattle.std.specs.Prelude.{◌≡◌};
ghost use Rattle.text.specs.Trees.{leaf_row, one_row, two_row};

use sheet::row::Row;

// A formula that is no group.
#[derive(Clone, Copy, Debug, PartialEq, Eq)]
pub(crate) enum Leaf {
    True,
    False,
    Start,
    End,
    Symbol(u8),
}

// The word of a group of one operand.
#[derive(Clone, Copy, Debug, PartialEq, Eq)]
pub(crate) enum Unary {
    Not,
    Next,
    Yest,
}

// The word of a group of two operands.
#[derive(Clone, Copy, Debug, PartialEq, Eq)]
pub(crate) enum Binary {
    And,
    Or,
    Until,
    Since,
}

// The row of such a formula.
impl From<Leaf> for Row {
    ghost from_gives = { λ l r. r ≡ leaf_row l };

    fn from(leaf: Leaf) -> Row {
        match leaf {
            Leaf::True => Row::True,
            Leaf::False => Row::False,
            Leaf::Start => Row::Start,
            Leaf::End => Row::End,
            Leaf::Symbol(s) => Row::Symbol(s),
        }
    }
}

impl Unary {
    // The row of a group with this word, over the row `a`.
    pub(crate) fn row(self, a: u8) -> Row
        ensures { result ≡ one_row self a }
    {
        match self {
            Unary::Not => Row::Not(a),
            Unary::Next => Row::Next(a),
            Unary::Yest => Row::Yest(a),
        }
    }
}

impl Binary {
    // The row of a group with this word, over the rows `a` and `b`.
    pub(crate) fn row(self, a: u8, b: u8) -> Row
        ensures { result ≡ two_row self a b }
    {
        match self {
            Binary::And => Row::And(a, b),
            Binary::Or => Row::Or(a, b),
            Binary::Until => Row::Until(a, b),
            Binary::Since => Row::Since(a, b),
        }
    }
}
