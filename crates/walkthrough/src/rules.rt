// Rules from a text file: each line is put onto a sheet, and what is refused is shown with the place marked under it.
use sheet::sheet::Sheet;
use std::{fs, io};
use text::refusal::TextRefusal;
use text::rule_text::add_rule_text;

// Prints a refused text, the place marked under it if one is told, the number and the word.
fn show_refused(rt: &HostRuntime, line: &str, refusal: TextRefusal) -> io::Result<()> {
    println!(rt; "refused: {line}")?;
    if let Some(place) = refusal.place() {
        print!(rt; "         ")?;
        for _ in 0..place {
            print!(rt; " ")?;
        }
        println!(rt; "^")?;
    }
    println!(rt; "         {refusal}")
}

// The sheet of the rules in a file, one rule to a line.
pub(crate) fn read_rules(rt: &HostRuntime, name: &str) -> io::Result<Sheet> {
    println!(rt; "{name}, a file of rules")?;
    let text = fs::read_to_string(rt, name)?;
    let mut sheet = Sheet::new(rt.alloc())?;
    for line in text.lines() {
        match add_rule_text(&mut sheet, line.as_bytes()) {
            Ok(number) => println!(rt; "rule {number}: {line}")?,
            Err(refusal) => show_refused(rt, line, refusal)?,
        }
    }
    Ok(sheet)
}
