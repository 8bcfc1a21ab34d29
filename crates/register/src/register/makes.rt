// The making of a register, on a sheet or on the mirrored one.
ghost use Rattle.register.specs.Contents.{content, mirrored};
ghost use Rattle.register.specs.History.{Begun};

use crate::register::Register;
use crate::room::Room;
use crate::totals::Totals;
use sheet::sheet::Sheet;

impl Register {
    // A register with no trace, and none open. It takes its memory from the room, so it cannot fail.
    pub fn new(room: Room, sheet: Sheet, mark: u32) -> Register
        ensures { Begun (content sheet) mark result }
    {
        let Room { codes, figures } = room;
        Register {
            mark,
            live: false,
            codes,
            totals: Totals::new(figures, sheet),
        }
    }

    // A new register on the mirrored sheet: fed the reversed traces of another, it comes to the same figures.
    pub fn mirrored(room: Room, sheet: Sheet, mark: u32) -> Register
        ensures { Begun (mirrored (content sheet)) mark result }
    {
        Register::new(room, sheet.mirrored(), mark)
    }
}
