// A recorder of another maker's: six readings of a load cell. It implements the trace interface itself, and has a fault of its own.
ghost use Rattle.std.specs.Prelude.{◌≡◌, map, length};
ghost use Rattle.installer.specs.Loads.{load_reading, loads_few};

use trace::reading::{Event, Fault, Reading};
use trace::source::{Source, index_of};
use trace::symbols::SymbolSet;

// The cause by which the recorder tells a load that its cell cannot bear.
const OVERLOAD: u32 = 700;

// Loads in kilograms, one for each instant.
#[derive(Drop)]
pub(crate) struct Board {
    pub(crate) kilograms: [u16; 6],
    ghost six: { length kilograms ≡ 6 },
}

// What one load shows: symbol 40 where there is a load at all; above 500 kilograms a fault, whose place is the load.
fn load_reading(kilograms: u16) -> Reading
    ensures { result ≡ load_reading kilograms }
{
    if kilograms > 500 {
        return Err(Fault::new(OVERLOAD, usize::from(kilograms)));
    }
    let symbols = SymbolSet::empty();
    if kilograms == 0 {
        return Ok(Event { symbols });
    }
    Ok(Event {
        symbols: symbols.with(40),
    })
}

impl Source for Board {
    ghost readings = { λ s. map load_reading s.kilograms };

    ghost few = { λ s. loads_few s.kilograms s.six };

    fn len(&self) -> usize {
        6
    }

    fn reading(&self, instant: usize) -> Reading {
        let index = index_of(instant, 6)?;
        load_reading(self.kilograms[index])
    }
}
