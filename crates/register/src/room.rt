// The memory of a register, claimed before the register is made, so that making it and every call on it cannot fail for want
// of memory.
ghost use Rattle.std.specs.Prelude.{◌≡◌, ◌≤◌, [], IfOk, vec_capacity};
ghost use Rattle.sheet.specs.Limits.{max_rules};
ghost use Rattle.register.specs.Limits.{max_instants};

use crate::figures::Figures;
use sheet::row::MAX_RULES;
use std::alloc::{AllocError, Global};
use trace::source::MAX_INSTANTS;

// Room for the codes of the longest live trace, and for the figures of all the rules that a sheet may have.
#[derive(Drop)]
pub struct Room {
    pub(crate) codes: Vec<u8>,
    pub(crate) figures: Vec<Figures>,
    // Nothing is in it yet.
    ghost no_codes: { codes.items ≡ [] },
    ghost no_figures: { figures.items ≡ [] },
    // It is enough.
    ghost codes_room: { max_instants ≤ vec_capacity codes },
    ghost figures_room: { max_rules ≤ vec_capacity figures },
}

impl Room {
    // Claims the memory. It fails only for want of it, and then nothing is left behind.
    pub fn new(heap: Global) -> Result<Room, AllocError>
        ensures { IfOk result (λ m. (m.codes.items ≡ []) × (max_instants ≤ vec_capacity m.codes) × (m.figures.items ≡ []) × (max_rules ≤ vec_capacity m.figures)) }
    {
        let codes = Vec::with_capacity(heap, MAX_INSTANTS)?;
        let figures = Vec::with_capacity(heap, MAX_RULES)?;
        Ok(Room { codes, figures })
    }
}
