// Sheets of random rows and rules.
ghost use Rattle.std.specs.Prelude.{◌≡◌, ℕ, ◌<◌, ◌≤◌, [], length, IfOk};
ghost use Rattle.sheet.specs.Contents.{rows_of, rules_of};
ghost use Rattle.sheet.specs.Theorems.{OperandsThere, RuleFits};

use crate::random::Random;
use sheet::row::{Row, Rule};
use sheet::sheet::Sheet;
use std::alloc::Global;
use std::io;

// When a random row's symbol is drawn: for every row, or only for a row that has one. What is drawn after a row differs.
#[derive(Clone, Copy)]
pub enum SymbolDraw {
    Always,
    WhereNeeded,
}

// How many kinds of row are drawn from.
const KINDS: usize = 15;

// The first of the kinds that are symbols; so are all after it.
const SYMBOLS_FROM: usize = 13;

// The row of a kind, over these operands or of this symbol.
fn row_of(kind: usize, a: u8, b: u8, symbol: u8) -> Row
    ensures { (n : ℕ) → a < n → b < n → symbol < 64 → OperandsThere n result }
{
    match kind {
        0 => Row::True,
        1 => Row::False,
        2 => Row::Not(a),
        3 => Row::And(a, b),
        4 => Row::Or(a, b),
        5 => Row::Next(a),
        6 => Row::Yest(a),
        7 | 8 => Row::Until(a, b),
        9 | 10 => Row::Since(a, b),
        11 => Row::Start,
        12 => Row::End,
        _ => Row::Symbol(symbol),
    }
}

// A row of random kind over the first `count` rows. It may still be refused, for which way its operands look.
fn random_row(random: &mut Random, count: usize, draw: SymbolDraw) -> Row
    ensures { 0 < count → OperandsThere count result }
{
    let a = random.byte(count);
    let b = random.byte(count);
    match draw {
        SymbolDraw::Always => {
            let symbol = random.byte(4);
            row_of(random.below(KINDS), a, b, symbol)
        }
        SymbolDraw::WhereNeeded => {
            let kind = random.below(KINDS);
            if kind < SYMBOLS_FROM {
                row_of(kind, a, b, 0)
            } else {
                Row::Symbol(random.byte(4))
            }
        }
    }
}

// A random rule over the first `count` rows.
fn random_rule(random: &mut Random, count: usize) -> Rule
    ensures { 0 < count → RuleFits count result }
{
    Rule {
        activator: random.byte(count),
        target: random.byte(count),
    }
}

// A sheet to which so many random rows were tried to add.
fn random_rows(
    heap: Global,
    random: &mut Random,
    tries: usize,
    draw: SymbolDraw,
) -> io::Result<Sheet>
    ensures { IfOk result (λ s. (length (rows_of s) ≤ tries) × (rules_of s ≡ [])) }
{
    let mut sheet = Sheet::new(heap)?;
    for _k in 0..tries {
        let count = sheet.rows().len();
        let _ = sheet.add_row(random_row(random, count, draw));
    }
    Ok(sheet)
}

// A sheet of up to 13 random rows, with up to three random rules.
pub fn random_sheet(heap: Global, random: &mut Random, draw: SymbolDraw) -> io::Result<Sheet>
    ensures { IfOk result (λ s. (length (rows_of s) ≤ 13) × (length (rules_of s) ≤ 3)) }
{
    let tries = random.below(10) + 4;
    let mut sheet = random_rows(heap, random, tries, draw)?;
    let count = sheet.rows().len();
    for _k in 0..3usize {
        let _ = sheet.add_rule(random_rule(random, count));
    }
    Ok(sheet)
}
