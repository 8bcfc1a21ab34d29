// What the tests share: a small sheet, and answers as numbers.
use register::refusal::Refusal;
use register::register::Register;
use register::room::Room;
use sheet::row::{Row, Rule};
use sheet::sheet::Sheet;
use std::alloc::{AllocError, Global};

// A register on a sheet of four rows, with the one rule a => (true until d).
pub(crate) fn register(heap: Global, mark: u32) -> Result<Register, AllocError> {
    let mut sheet = Sheet::new(heap)?;
    let _ = sheet.add_row(Row::Symbol(0));
    let _ = sheet.add_row(Row::True);
    let _ = sheet.add_row(Row::Symbol(3));
    let _ = sheet.add_row(Row::Until(1, 2));
    let _ = sheet.add_rule(Rule {
        activator: 0,
        target: 3,
    });
    Ok(Register::new(Room::new(heap)?, sheet, mark))
}

// The number of a refusal, and 0 for a call that is accepted.
pub(crate) fn told<T: Drop>(answer: Result<T, Refusal>) -> u8 {
    match answer {
        Ok(_) => 0,
        Err(why) => why.number(),
    }
}
