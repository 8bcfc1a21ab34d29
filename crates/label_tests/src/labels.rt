// Tests of labelling into a strip: its size, the cells past it, and the verdicts.
use crate::pair::Pair;
use label::labelling::{settle, stand};
use label::refusal::Refusal;
use label::verdict::Verdict;
use sheet::row::Row;
use sheet::sheet::Sheet;
use std::mem::size_of;
use std::process::Abort;
use std::test::Fail;
use trace::reading::{Event, Fault, Reading};
use trace::source::Source;
use trace::symbols::SymbolSet;

// An answer with the refusal's number in place of the refusal.
fn told(answer: Result<usize, Refusal>) -> Result<usize, u8> {
    answer.map_err(Refusal::number)
}

// A letter for each verdict.
fn letter(verdict: Verdict) -> u8 {
    match verdict {
        Verdict::No => b'n',
        Verdict::Open => b'o',
        Verdict::Yes => b'y',
    }
}

// Checks the cells of a strip against their letters; `what` says which strip it is.
pub(crate) fn check_cells(
    rt: &impl Abort,
    strip: &[Verdict],
    letters: &[u8],
    what: &str,
) -> Result<(), Fail> {
    assert!(rt; letters.len() == strip.len(), "{what}");
    for (verdict, expected) in strip.iter().zip(letters) {
        assert_eq!(rt; letter(*verdict), *expected, "{what}");
    }
    Ok(())
}

// The reading that shows one symbol.
fn only(symbol: u8) -> Reading {
    Ok(Event {
        symbols: SymbolSet::empty().with(symbol),
    })
}

#[test]
fn strips(rt: HostRuntime) -> Result<(), Fail> {
    assert_eq!(rt; size_of::<Verdict>(), 1, "a cell is one byte");
    let mut sheet = Sheet::new(rt.alloc())?;
    for row in [Row::Symbol(0), Row::Symbol(1), Row::Until(0, 1)] {
        let _ = sheet.add_row(row);
    }
    let trace = Pair {
        first: only(0),
        second: only(1),
    };
    let mut short = [Verdict::Open; 5];
    assert_eq!(rt;
        told(settle(&sheet, &trace, &mut short)),
        Err(3),
        "one cell too few"
    );
    check_cells(&rt, &short, b"ooooo", "one cell short")?;
    let mut exact = [Verdict::Open; 6];
    assert_eq!(rt;
        told(settle(&sheet, &trace, &mut exact)),
        Ok(2),
        "just enough cells"
    );
    check_cells(&rt, &exact, b"ynynyy", "just enough cells")?;
    let mut long = [Verdict::Open; 8];
    assert_eq!(rt;
        told(settle(&sheet, &trace, &mut long)),
        Ok(2),
        "two cells more"
    );
    check_cells(&rt, &long, b"ynynyyoo", "two cells more")
}

#[test]
fn kinds(rt: HostRuntime) -> Result<(), Fail> {
    let mut sheet = Sheet::new(rt.alloc())?;
    for row in [Row::Symbol(1), Row::Next(0), Row::End] {
        let _ = sheet.add_row(row);
    }
    let trace = Pair {
        first: only(0),
        second: Err(Fault::new(1, 1)),
    };
    let mut strip = [Verdict::Yes; 7];
    assert_eq!(rt; told(settle(&sheet, &trace, &mut strip)), Ok(2));
    check_cells(&rt, &strip, b"nnnnnyy", "settled")?;
    assert_eq!(rt; told(stand(&sheet, &trace, &mut strip)), Ok(2));
    check_cells(&rt, &strip, b"nnnnooy", "standing")
}
