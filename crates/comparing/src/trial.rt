// What every comparison works with, and what it is told by.
use sampling::events::random_events;
use sampling::random::Random;
use sampling::records::random_bytes;
use sampling::sheets::{SymbolDraw, random_sheet};
use sampling::tally::Tally;
use sheet::sheet::Sheet;
use std::alloc::Global;
use std::io;

// Where the generator starts.
const SEED: usize = 2026;

// Memory, the generator and the way in which it draws rows, the comparisons of the kind at hand, and those of the kinds told before.
#[derive(Drop)]
pub(crate) struct Trial {
    pub(crate) heap: Global,
    pub(crate) random: Random,
    pub(crate) tally: Tally,
    draw: SymbolDraw,
    told: Tally,
}

impl Trial {
    // A trial that has compared nothing yet.
    pub(crate) fn new(heap: Global, draw: SymbolDraw) -> Trial {
        Trial {
            heap,
            random: Random::new(SEED),
            tally: Tally::new(),
            draw,
            told: Tally::new(),
        }
    }

    // A random sheet.
    pub(crate) fn sheet(&mut self) -> io::Result<Sheet> {
        random_sheet(self.heap, &mut self.random, self.draw)
    }

    // So many random instants.
    pub(crate) fn events(&mut self, n: usize) -> io::Result<Vec<u64>> {
        random_events(self.heap, &mut self.random, n)
    }

    // So many random bytes below a limit.
    pub(crate) fn bytes(&mut self, n: usize, limit: usize) -> io::Result<Vec<u8>> {
        random_bytes(self.heap, &mut self.random, n, limit)
    }

    // Tells the comparisons of the kind at hand, and begins the next kind.
    pub(crate) fn tell(&mut self, rt: &HostRuntime, kind: &str) -> io::Result<()> {
        let tally = self.tally;
        self.tally = Tally::new();
        self.tell_apart(rt, kind, tally)
    }

    // Tells comparisons of a kind that were counted apart.
    pub(crate) fn tell_apart(
        &mut self,
        rt: &HostRuntime,
        kind: &str,
        tally: Tally,
    ) -> io::Result<()> {
        self.told = self.told.plus(tally);
        println!(rt; "{kind}: {tally}")
    }

    // Tells all comparisons that were told by kind.
    pub(crate) fn tell_all(&self, rt: &HostRuntime) -> io::Result<()> {
        let told = self.told;
        println!(rt; "all: {told}")
    }
}
