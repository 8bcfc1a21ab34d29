// How the tables of the tests write a trace: its length, and what it tells at an instant.
use trace::reading::{Fault, Reading, shows};
use trace::source::Source;
use trace::unreadable::first_unreadable;

// What a trace is to tell at an instant.
#[derive(Clone, Copy)]
pub(crate) enum Told {
    // These symbols and no others, by the bits of a number.
    Symbols(u64),
    // A fault: cause, place and layers.
    Fault(u32, usize, u8),
}

// The symbols of a reading, by the bits of a number; none in a fault.
fn bits(reading: Reading) -> u64 {
    let mut bits = 0;
    for symbol in 0..64u8 {
        if shows(&reading, symbol) {
            bits |= 1 << symbol;
        }
    }
    bits
}

// Whether a reading is what the table says.
fn agrees(reading: Reading, told: Told) -> bool {
    match (reading, told) {
        (Ok(_), Told::Symbols(expected)) => bits(reading) == expected,
        (Err(fault), Told::Fault(cause, place, layers)) => {
            fault
                == Fault {
                    cause,
                    place,
                    layers,
                }
        }
        (_, _) => false,
    }
}

// Whether a trace has this length and tells this at this instant, and the fault for the instants outside it.
pub(crate) fn tells<S: Source>(source: &S, len: usize, instant: usize, told: Told) -> bool {
    let outside = Told::Fault(5, 0, 0);
    source.len() == len
        && agrees(source.reading(instant), told)
        && agrees(source.reading(0), outside)
        && agrees(source.reading(99999), Told::Fault(5, 99999, 0))
}

// Whether the first unreadable instant of a trace is this one, with this fault.
pub(crate) fn first_is<S: Source>(source: &S, instant: usize, told: Told) -> bool {
    match first_unreadable(source) {
        Some(found) => found.instant == instant && agrees(Err(found.fault), told),
        None => false,
    }
}

// A reading that is a fault of another recorder's, for the layers to raise.
pub(crate) fn own_fault(layers: u8) -> Reading {
    Err(Fault {
        cause: 900,
        place: 7,
        layers,
    })
}
