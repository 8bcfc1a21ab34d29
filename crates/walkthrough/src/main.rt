// A walk through the library on recorded traces: it reads each file, puts it behind a bottom, lays all three layers on it,
// prints each reading and each fault in plain words, and finds the first unreadable instant of a damaged record. Then it reads
// rules from a text file, shows what is refused and where, and holds the records of a log file against the rules.
#![tactic(auto)]

mod labels;
mod log;
mod rules;
mod shows;

use bottoms::codes::Codes;
use bottoms::runs::Runs;
use bottoms::snapshots::Snapshots;
use layers::refusal::Refusal;
use layers::renamed::Renamed;
use layers::renaming::{DROPPED, Renaming};
use layers::reversed::Reversed;
use layers::segment::Segment;
use log::show_log;
use rules::read_rules;
use shows::{show_first_unreadable, show_trace};
use std::{fs, io};

// A table that sends symbol 3 to 10 and drops symbol 2; it also shows an entry that is refused.
fn renaming(rt: &HostRuntime) -> io::Result<Renaming> {
    let mut table = Renaming::new();
    for (from, to) in [(3, 10), (2, DROPPED), (64, 0)] {
        match table.send(from, to) {
            Ok(()) => println!(rt; "renaming: {from} to {to}")?,
            Err(refusal) => show_refusal(rt, from, to, refusal)?,
        }
    }
    Ok(table)
}

// Prints why a table entry was not set.
fn show_refusal(rt: &HostRuntime, from: u8, to: u8, refusal: Refusal) -> io::Result<()> {
    println!(rt; "renaming: {from} to {to} refused {refusal}")
}

// A record of runs, as it is and under each layer in turn.
fn show_runs(rt: &HostRuntime, name: &str) -> io::Result<()> {
    let record = fs::read(rt, name)?;
    let runs = Runs::new(record.as_slice());
    println!(rt; "{name}, a record of runs")?;
    show_trace(rt, &runs)?;
    println!(rt; "the same from its end, reversed")?;
    let reversed = Reversed { below: runs };
    show_trace(rt, &reversed)?;
    println!(rt; "of that the segment from instant 2 to 8")?;
    let segment = Segment {
        below: reversed,
        first: 2,
        last: 8,
    };
    show_trace(rt, &segment)?;
    let renamed = Renamed {
        below: segment,
        renaming: renaming(rt)?,
    };
    show_trace(rt, &renamed)?;
    show_first_unreadable(rt, &renamed)
}

// A record of snapshots, and a segment that it does not have.
fn show_snapshots(rt: &HostRuntime, name: &str) -> io::Result<()> {
    let record = fs::read(rt, name)?;
    let snapshots = Snapshots::new(record.as_slice());
    println!(rt; "{name}, a record of snapshots")?;
    show_trace(rt, &snapshots)?;
    println!(rt; "its segment from instant 3 to 9, which is not all there")?;
    show_trace(
        rt,
        &Segment {
            below: snapshots,
            first: 3,
            last: 9,
        },
    )
}

// A damaged record of codes, read forward and backward.
fn show_damaged(rt: &HostRuntime, name: &str) -> io::Result<()> {
    let record = fs::read(rt, name)?;
    let codes = Codes::new(record.as_slice());
    println!(rt; "{name}, a damaged record of codes")?;
    show_first_unreadable(rt, &codes)?;
    println!(rt; "the same from its end, reversed")?;
    show_first_unreadable(rt, &Reversed { below: codes })
}

fn main(rt: HostRuntime) -> io::Result<()> {
    show_runs(&rt, "morning.runs")?;
    show_snapshots(&rt, "lines.snapshots")?;
    show_damaged(&rt, "damaged.codes")?;
    let sheet = read_rules(&rt, "rules.txt")?;
    show_log(&rt, &sheet, "session.log")
}
