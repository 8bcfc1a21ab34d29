// The register: what it holds, and what always holds of it.
ghost use Rattle.std.specs.Prelude.{◌≤◌, vec_len, vec_capacity};
ghost use Rattle.register.specs.Bounds.{Coded};
ghost use Rattle.register.specs.Limits.{max_instants};

use crate::totals::Totals;

pub mod adds;
pub mod live;
pub mod makes;

// A mark, the codes of the open trace if one is open, and the sums over the traces added.
#[derive(Drop)]
pub struct Register {
    mark: u32,
    live: bool,
    codes: Vec<u8>,
    totals: Totals,
    // The open trace is no longer than a trace may be, there is room for all of it, and its codes name symbols.
    ghost room: { vec_len codes ≤ max_instants },
    ghost reserved: { max_instants ≤ vec_capacity codes },
    ghost coded: { Coded codes.items },
}
