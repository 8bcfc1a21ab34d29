// The records of a log file, each held against the rules of a sheet.
use crate::labels::show_labels;
use crate::shows::{show_first_unreadable, show_trace};
use bottoms::codes::Codes;
use bottoms::runs::Runs;
use bottoms::snapshots::Snapshots;
use logfile::reader::LogReader;
use logfile::record::{Kind, Record};
use sheet::sheet::Sheet;
use std::{fs, io};
use trace::source::Source;
use trace::unreadable::first_unreadable;

// Prints a trace and its labels; of one that cannot be read, the first unreadable instant.
fn show_source<S: Source>(rt: &HostRuntime, sheet: &Sheet, source: &S) -> io::Result<()> {
    if first_unreadable(source).is_some() {
        return show_first_unreadable(rt, source);
    }
    show_trace(rt, source)?;
    show_labels(rt, sheet, source)
}

// Prints one record by its kind.
fn show_record(rt: &HostRuntime, sheet: &Sheet, record: Record) -> io::Result<()> {
    let place = record.place;
    match record.kind {
        Kind::Codes => {
            println!(rt; "a record of codes at byte {place}")?;
            show_source(rt, sheet, &Codes::new(record.body))
        }
        Kind::Snapshots => {
            println!(rt; "a record of snapshots at byte {place}")?;
            show_source(rt, sheet, &Snapshots::new(record.body))
        }
        Kind::Runs => {
            println!(rt; "a record of runs at byte {place}")?;
            show_source(rt, sheet, &Runs::new(record.body))
        }
    }
}

// Prints the records of a log file, up to its end or to the first that cannot be read.
pub(crate) fn show_log(rt: &HostRuntime, sheet: &Sheet, name: &str) -> io::Result<()> {
    println!(rt; "{name}, a log file")?;
    let file = fs::read(rt, name)?;
    let mut reader = LogReader::new(file.as_slice());
    for _ in 0..file.len() {
        match reader.next() {
            Ok(Some(record)) => show_record(rt, sheet, record)?,
            Ok(None) => break,
            Err(bad) => {
                let place = bad.place;
                println!(rt; "the log is refused {bad}, at byte {place}")?;
                break;
            }
        }
    }
    Ok(())
}
