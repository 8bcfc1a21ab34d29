// A table that sends each symbol to a symbol, or drops it.
ghost use Rattle.std.specs.Prelude.{◌≡◌, set, if◌then◌else◌, slice_set};
ghost use Rattle.layers.specs.Refusals.{told};
ghost use Rattle.layers.specs.Renamings.{kept, images, allowed, send_answer, Images};

use crate::refusal::Refusal;
use std::array;
use trace::symbols::{SYMBOLS, SymbolSet};

// A table entry that drops its symbol.
pub const DROPPED: u8 = 64;

// Where each symbol is sent: to a symbol, or to 64 where it is dropped.
#[derive(Clone, Copy)]
pub struct Renaming {
    table: [u8; 64],
}

impl Renaming {
    // The table that keeps every symbol.
    pub fn new() -> Renaming
        ensures { result.table ≡ kept }
    {
        Renaming {
            table: array::from_fn(|s| s as u8),
        }
    }

    // Sends one symbol to another, or drops it. A refusal leaves the table as it was.
    pub fn send(&mut self, from: u8, to: u8) -> Result<(), Refusal>
        ensures answer { told result ≡ send_answer from to }
        ensures table { self.new.table ≡ (if allowed from to then slice_set self.old.table from to else self.old.table) }
    {
        if from >= SYMBOLS || to > DROPPED {
            return Err(Refusal::BadRenaming);
        }
        self.table[from as usize] = to;
        Ok(())
    }

    // The set of the symbols that those of a set are sent to. With it stands what that means.
    pub fn image(&self, symbols: SymbolSet) -> SymbolSet
        ensures value { result ≡ images self.now.table symbols }
        ensures law { Images }
    {
        let mut out = SymbolSet::empty();
        for (s, to) in self.table.iter().enumerate() {
            if symbols.contains(s as u8) {
                out = out.with(*to);
            }
        }
        out
    }
}
