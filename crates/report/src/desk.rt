// A desk: all the memory that a report can need, claimed beforehand.
ghost use Rattle.std.specs.Prelude.{◌≡◌, vec_len};

use crate::output::Output;
use register::room::Room;
use sheet::sheet::Sheet;

pub mod reporting;

// An empty sheet, the room of a register, and room for the longest report.
#[derive(Drop)]
pub struct Desk {
    sheet: Sheet,
    room: Room,
    out: Output,
    // Nothing is written yet.
    ghost no_rows: { vec_len sheet.rows ≡ 0 },
    ghost no_rules: { vec_len sheet.rules ≡ 0 },
    ghost blank: { vec_len out.bytes ≡ 0 },
}
