// The rule-text reader: random formulas are written out and read again, and texts with one byte changed are refused or mean what
// they write.
use crate::trial::Trial;
use evaluator::truth::{operands, truth};
use sampling::tally::Tally;
use sheet::row::{Row, Rule};
use sheet::sheet::Sheet;
use std::alloc::Global;
use std::fmt::Write;
use std::io;
use text::refusal::TextRefusal;
use text::rule_text::add_rule_text;

// What is written before a row's first operand, between the two, and after them.
fn words(row: Row) -> (&'static str, &'static str, &'static str) {
    match row {
        Row::True => ("true", "", ""),
        Row::False => ("false", "", ""),
        Row::Symbol(_) => ("s", "", ""),
        Row::Not(_) => ("(not ", "", ")"),
        Row::And(_, _) => ("(", " and ", ")"),
        Row::Or(_, _) => ("(", " or ", ")"),
        Row::Next(_) => ("(next ", "", ")"),
        Row::Yest(_) => ("(yest ", "", ")"),
        Row::Until(_, _) => ("(", " until ", ")"),
        Row::Since(_, _) => ("(", " since ", ")"),
        Row::Start => ("start", "", ""),
        Row::End => ("end", "", ""),
    }
}

// Writes the formula of row r.
fn write_formula(out: &mut String, rows: &[Row], r: usize) -> io::Result<()> {
    if r >= rows.len() {
        return Ok(());
    }
    let row = rows[r];
    let before = &rows[0..r];
    let (open, between, close) = words(row);
    let (first, second) = operands(row);
    out.push_str(open)?;
    if let Row::Symbol(s) = row {
        write!(out, "{s}")?;
    }
    if let Some(number) = first {
        write_formula(out, before, usize::from(number))?;
    }
    out.push_str(between)?;
    if let Some(number) = second {
        write_formula(out, before, usize::from(number))?;
    }
    out.push_str(close)?;
    Ok(())
}

// How many rows the formula of row r takes where each part is a row of its own.
fn size(rows: &[Row], r: usize) -> usize {
    if r >= rows.len() {
        return 0;
    }
    let before = &rows[0..r];
    let (first, second) = operands(rows[r]);
    let left = match first {
        Some(number) => size(before, usize::from(number)),
        None => 0,
    };
    let right = match second {
        Some(number) => size(before, usize::from(number)),
        None => 0,
    };
    left.saturating_add(right).saturating_add(1)
}

// The text of a rule over these rows.
fn rule_text(heap: Global, rows: &[Row], rule: Rule) -> io::Result<String> {
    let mut out = String::new(heap);
    write_formula(&mut out, rows, usize::from(rule.activator))?;
    out.push_str(" => ")?;
    write_formula(&mut out, rows, usize::from(rule.target))?;
    Ok(out)
}

// Whether the first rule of a sheet is written by this text.
fn writes(heap: Global, sheet: &Sheet, text: &[u8]) -> io::Result<bool> {
    match sheet.rules().first() {
        Some(rule) => Ok(rule_text(heap, sheet.rows(), *rule)?.as_bytes() == text),
        None => Ok(false),
    }
}

// Whether the first rule of a sheet holds where a rule over these rows does.
fn same_truth(sheet: &Sheet, rows: &[Row], rule: Rule, events: &[u64]) -> bool {
    let Some(read) = sheet.rules().first().copied() else {
        return false;
    };
    let activator = usize::from(read.activator);
    let target = usize::from(read.target);
    truth(sheet.rows(), events, activator) == truth(rows, events, usize::from(rule.activator))
        && truth(sheet.rows(), events, target) == truth(rows, events, usize::from(rule.target))
}

// Writes a rule, reads the text onto an empty sheet, and compares the two by text and by truth. A text of more than 32 rows is
// refused.
fn compare_text(trial: &mut Trial, rows: &[Row], rule: Rule, events: &[u64]) -> io::Result<()> {
    let heap = trial.heap;
    let left = size(rows, usize::from(rule.activator));
    let right = size(rows, usize::from(rule.target));
    let many = left.saturating_add(right) > 32;
    let text = rule_text(heap, rows, rule)?;
    let mut sheet = Sheet::new(heap)?;
    match add_rule_text(&mut sheet, text.as_bytes()) {
        Ok(_) => {
            trial
                .tally
                .note(!many && writes(heap, &sheet, text.as_bytes())?);
            trial.tally.note(same_truth(&sheet, rows, rule, events));
        }
        Err(refusal) => trial.tally.note(many && refusal.number() == 11),
    }
    Ok(())
}

// The bytes that texts are changed by.
const BYTES: &[u8] = b" ()=>0123456789abdefhilnorstuxy";

// A text with the byte at a place changed.
fn changed(heap: Global, text: &[u8], at: usize, byte: u8) -> io::Result<Vec<u8>> {
    let mut out = text.to_vec(heap)?;
    if let Some(old) = out.get_mut(at) {
        *old = byte;
    }
    Ok(out)
}

// Whether a refusal can be that of a text of this length that was right up to a place.
fn may_refuse(refusal: TextRefusal, at: usize, length: usize) -> bool {
    match refusal.place() {
        Some(place) => refusal.number() == 14 && at <= place && place <= length,
        None => refusal.number() >= 11 && refusal.number() <= 13,
    }
}

// Changes one byte of a rule's text: it is refused, not before that byte, or the rule read is the one that it writes.
fn compare_changed(
    trial: &mut Trial,
    rows: &[Row],
    rule: Rule,
    changes: &mut Tally,
) -> io::Result<()> {
    let heap = trial.heap;
    let text = rule_text(heap, rows, rule)?;
    let at = trial.random.below(text.len());
    let byte = BYTES
        .get(trial.random.below(BYTES.len()))
        .copied()
        .unwrap_or(0);
    let other = changed(heap, text.as_bytes(), at, byte)?;
    let mut sheet = Sheet::new(heap)?;
    match add_rule_text(&mut sheet, &other) {
        Ok(_) => changes.note(writes(heap, &sheet, &other)?),
        Err(refusal) => changes.note(may_refuse(refusal, at, other.len())),
    }
    Ok(())
}

// Compares the texts of a sheet's rules, and texts with one byte changed.
fn compare_texts(
    trial: &mut Trial,
    sheet: &Sheet,
    events: &[u64],
    changes: &mut Tally,
) -> io::Result<()> {
    for rule in sheet.rules() {
        compare_text(trial, sheet.rows(), *rule, events)?;
        compare_changed(trial, sheet.rows(), *rule, changes)?;
        compare_changed(trial, sheet.rows(), *rule, changes)?;
    }
    Ok(())
}

// Compares the texts of the rules of random sheets. Those with one byte changed are counted apart.
pub(crate) fn random_texts(trial: &mut Trial, rounds: usize) -> io::Result<Tally> {
    let mut changes = Tally::new();
    for _ in 0..rounds {
        let sheet = trial.sheet()?;
        let events = trial.events(6)?;
        compare_texts(trial, &sheet, &events, &mut changes)?;
    }
    Ok(changes)
}
