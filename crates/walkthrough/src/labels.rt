// What the rules of a sheet say of a trace.
use label::labelling::{settle, stand};
use label::verdict::Verdict;
use sheet::sheet::Sheet;
use std::io;
use trace::source::Source;

// The mark by which a verdict is printed.
fn mark(verdict: Verdict) -> char {
    match verdict {
        Verdict::No => '0',
        Verdict::Open => '?',
        Verdict::Yes => '1',
    }
}

// Prints one row's verdicts at the first instants of a strip, on one line.
fn show_row(
    rt: &HostRuntime,
    sheet: &Sheet,
    strip: &[Verdict],
    instants: usize,
    row: u8,
) -> io::Result<()> {
    let width = sheet.rows().len().max(1);
    for cells in strip.chunks(width).take(instants) {
        if let Some(verdict) = cells.get(usize::from(row)) {
            let mark = mark(*verdict);
            print!(rt; "{mark}")?;
        }
    }
    println!(rt; "")
}

// Prints a line of labels for each side of each rule.
fn show_rules(
    rt: &HostRuntime,
    sheet: &Sheet,
    strip: &[Verdict],
    instants: usize,
) -> io::Result<()> {
    for (number, rule) in sheet.rules().iter().enumerate() {
        print!(rt; "  rule {number} activator: ")?;
        show_row(rt, sheet, strip, instants, rule.activator)?;
        print!(rt; "  rule {number} target:    ")?;
        show_row(rt, sheet, strip, instants, rule.target)?;
    }
    Ok(())
}

// Labels a trace as closed and as still open, and prints both.
pub(crate) fn show_labels<S: Source>(
    rt: &HostRuntime,
    sheet: &Sheet,
    source: &S,
) -> io::Result<()> {
    let mut strip = [Verdict::No; 512];
    if let Ok(instants) = settle(sheet, source, &mut strip) {
        println!(rt; "labels of the trace as it is closed")?;
        show_rules(rt, sheet, &strip, instants)?;
    }
    if let Ok(instants) = stand(sheet, source, &mut strip) {
        println!(rt; "labels of the same trace while it may go on (? is open)")?;
        show_rules(rt, sheet, &strip, instants)?;
    }
    Ok(())
}
