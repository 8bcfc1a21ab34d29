// Adding rows: which of them are refused, and by what, against a judgement of the formulas that they stand for.
use crate::trial::Trial;
use evaluator::refusals::row_refusal_number;
use sampling::random::Random;
use sheet::row::Row;
use sheet::sheet::Sheet;
use std::io;

// A row of random kind, whose operands and symbol may be just past what is there.
fn rash_row(random: &mut Random, count: usize) -> Row {
    let a = random.byte(count.saturating_add(1));
    let b = random.byte(count.saturating_add(1));
    match random.below(12) {
        0 => Row::True,
        1 => Row::Symbol(random.byte(66)),
        2 => Row::Not(a),
        3 => Row::And(a, b),
        4 => Row::Or(a, b),
        5 => Row::Next(a),
        6 => Row::Yest(a),
        7 => Row::Until(a, b),
        8 => Row::Since(a, b),
        9 => Row::Start,
        10 => Row::End,
        _ => Row::False,
    }
}

// Adds one random row, and compares the answer and how many rows there are then with what they should be.
fn add_one(trial: &mut Trial, sheet: &mut Sheet) {
    let count = sheet.rows().len();
    let row = rash_row(&mut trial.random, count);
    let expected = row_refusal_number(sheet.rows(), row);
    match sheet.add_row(row) {
        Ok(number) => {
            trial
                .tally
                .note(expected == 0 && usize::from(number) == count);
            trial
                .tally
                .note(sheet.rows().len() == count.saturating_add(1));
        }
        Err(refusal) => {
            trial.tally.note(refusal.number() == expected);
            trial.tally.note(sheet.rows().len() == count);
        }
    }
}

// Adds so many random rows to an empty sheet.
fn add_many(trial: &mut Trial, tries: usize) -> io::Result<()> {
    let mut sheet = Sheet::new(trial.heap)?;
    for _ in 0..tries {
        add_one(trial, &mut sheet);
    }
    Ok(())
}

// Compares the adding of random rows to some sheets.
pub(crate) fn random_additions(trial: &mut Trial, rounds: usize) -> io::Result<()> {
    for _ in 0..rounds {
        add_many(trial, 50)?;
    }
    Ok(())
}
