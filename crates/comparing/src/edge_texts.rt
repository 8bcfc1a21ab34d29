// Rule texts and sheets at their limits.
use crate::trial::Trial;
use sheet::row::{Row, Rule};
use sheet::sheet::Sheet;
use std::alloc::Global;
use std::io;
use text::rule_text::add_rule_text;

// A text, and the number that it is refused by with the place that is told, if it is refused.
struct Case {
    text: &'static str,
    refused: Option<(u8, Option<usize>)>,
}

// Texts that are just accepted or just refused.
const CASES: [Case; 12] = [
    Case {
        text: "s63 => s0",
        refused: None,
    },
    Case {
        text: "s64 => s0",
        refused: Some((12, None)),
    },
    Case {
        text: "s0 => s99",
        refused: Some((12, None)),
    },
    Case {
        text: "s100 => s0",
        refused: Some((14, Some(3))),
    },
    Case {
        text: "s00 => s0",
        refused: Some((14, Some(2))),
    },
    Case {
        text: "(next (true since s0)) => s0",
        refused: Some((13, None)),
    },
    Case {
        text: "s0 => (yest end)",
        refused: Some((13, None)),
    },
    Case {
        text: "(true until (next end)) => (start since s1)",
        refused: None,
    },
    Case {
        text: "s0 => s1 ",
        refused: Some((14, Some(8))),
    },
    Case {
        text: "s0 =>",
        refused: Some((14, Some(5))),
    },
    Case {
        text: "",
        refused: Some((14, Some(0))),
    },
    Case {
        text: "(s0 and  s1) => s0",
        refused: Some((14, Some(8))),
    },
];

// Compares what a text is refused by, on an empty sheet.
fn compare_case(
    trial: &mut Trial,
    text: &[u8],
    refused: Option<(u8, Option<usize>)>,
) -> io::Result<()> {
    let mut sheet = Sheet::new(trial.heap)?;
    match add_rule_text(&mut sheet, text) {
        Ok(rule) => trial.tally.note(refused.is_none() && rule == 0),
        Err(refusal) => trial
            .tally
            .note(refused == Some((refusal.number(), refusal.place()))),
    }
    Ok(())
}

// Adds a piece of text so many times.
fn push_times(text: &mut String, piece: &str, times: usize) -> io::Result<()> {
    for _ in 0..times {
        text.push_str(piece)?;
    }
    Ok(())
}

// A rule text whose activator has so many groups inside one another.
fn nested(heap: Global, groups: usize) -> io::Result<String> {
    let mut text = String::new(heap);
    push_times(&mut text, "(not ", groups)?;
    text.push_str("true")?;
    push_times(&mut text, ")", groups)?;
    text.push_str(" => true")?;
    Ok(text)
}

// Compares the texts at the edges, with 16 and 17 groups inside one another among them.
pub(crate) fn edge_texts(trial: &mut Trial) -> io::Result<()> {
    for case in &CASES {
        compare_case(trial, case.text.as_bytes(), case.refused)?;
    }
    let deep = nested(trial.heap, 16)?;
    compare_case(trial, deep.as_bytes(), None)?;
    let deeper = nested(trial.heap, 17)?;
    compare_case(trial, deeper.as_bytes(), Some((15, Some(80))))
}

// Adds one row more than a sheet may have.
fn edge_rows(trial: &mut Trial, sheet: &mut Sheet) {
    for k in 0..33u8 {
        match sheet.add_row(Row::Symbol(63)) {
            Ok(row) => trial.tally.note(k < 32 && row == k),
            Err(refusal) => trial.tally.note(k == 32 && refusal.number() == 11),
        }
    }
}

// Adds one rule more than a sheet may have.
fn edge_rules(trial: &mut Trial, sheet: &mut Sheet) {
    let rule = Rule {
        activator: 31,
        target: 0,
    };
    for k in 0..9u8 {
        match sheet.add_rule(rule) {
            Ok(number) => trial.tally.note(k < 8 && number == k),
            Err(refusal) => trial.tally.note(k == 8 && refusal.number() == 11),
        }
    }
}

// Compares a sheet's 32 rows and one more, and its 8 rules and one more.
pub(crate) fn edge_sheet(trial: &mut Trial) -> io::Result<()> {
    let mut sheet = Sheet::new(trial.heap)?;
    edge_rows(trial, &mut sheet);
    edge_rules(trial, &mut sheet);
    Ok(())
}
