// Readings, faults and traces in plain words.
use std::io;
use trace::reading::Event;
use trace::source::Source;
use trace::symbols::SYMBOLS;
use trace::unreadable::first_unreadable;

// Prints the symbols of an event, on a line that has begun.
fn show_event(rt: &HostRuntime, event: Event) -> io::Result<()> {
    for symbol in 0..SYMBOLS {
        if event.symbols.contains(symbol) {
            print!(rt; " {symbol}")?;
        }
    }
    println!(rt; "")
}

// Prints each reading of a trace.
pub(crate) fn show_trace<S: Source>(rt: &HostRuntime, source: &S) -> io::Result<()> {
    let n = source.len();
    println!(rt; "instants: {n}")?;
    for instant in 1..=n {
        print!(rt; "  instant {instant}:")?;
        match source.reading(instant) {
            Ok(event) => show_event(rt, event)?,
            Err(fault) => println!(rt; " cannot be read: {fault}")?,
        }
    }
    Ok(())
}

// Prints the first instant that cannot be read.
pub(crate) fn show_first_unreadable<S: Source>(rt: &HostRuntime, source: &S) -> io::Result<()> {
    match first_unreadable(source) {
        None => println!(rt; "every instant can be read"),
        Some(found) => {
            let instant = found.instant;
            let fault = found.fault;
            println!(rt; "first unreadable: instant {instant} cannot be read: {fault}")
        }
    }
}
