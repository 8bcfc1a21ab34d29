// A trace whose symbols are renamed by a table.
ghost use Rattle.std.specs.Prelude.{◌≡◌, map};
ghost use Rattle.layers.specs.Bounds.{renamed_few};
ghost use Rattle.layers.specs.Layers.{renamed};

use crate::renaming::Renaming;
use trace::reading::{Event, Reading, raised};
use trace::source::{Source, index_of};

// A source with its symbols renamed.
#[derive(Drop)]
pub struct Renamed<S> {
    pub below: S,
    pub renaming: Renaming,
}

impl<S: Source> Source for Renamed<S> {
    ghost readings = { λ s. map (renamed s.renaming.table) (S.Source.readings s.below) };

    ghost few = { λ s. renamed_few s.renaming.table (S.Source.readings s.below) (S.Source.few s.below) };

    fn len(&self) -> usize {
        self.below.len()
    }

    fn reading(&self, instant: usize) -> Reading {
        index_of(instant, self.len())?;
        let event = raised(self.below.reading(instant))?;
        Ok(Event {
            symbols: self.renaming.image(event.symbols),
        })
    }
}
