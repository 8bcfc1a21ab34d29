// The whole report as one call.
ghost use Rattle.std.specs.Prelude.{◌≡◌, ◌≤◌, true, false, [], length, IfOk, vec_capacity};
ghost use Rattle.register.specs.Contents.{content};
ghost use Rattle.report.specs.Limits.{max_log, max_output};
ghost use Rattle.report.specs.Output.{Long, FitsIn, Whole, Reported, OneOutput};

use crate::desk::Desk;
use crate::log::read_log;
use crate::output::Output;
use crate::rules::read_rules;
use label::labelling::MAX_CELLS;
use label::verdict::Verdict;
use lines::wording::{Entry, refused_line, too_long_line};
use register::register::Register;
use register::room::Room;
use sheet::sheet::Sheet;
use std::alloc::{AllocError, Global};

// How many bytes a rules file has at most.
pub const MAX_RULES_TEXT: usize = 8192;

// How many bytes a log has at most.
pub const MAX_LOG: usize = 65536;

// Whether a rules file or a log has more bytes than it may have.
fn is_too_long(rules: usize, log: usize) -> bool
    ensures long { result ≡ true → Long rules log }
    ensures fits { result ≡ false → FitsIn rules log }
{
    rules > MAX_RULES_TEXT || log > MAX_LOG
}

// Writes the report on a log, by the rules of a sheet.
fn report_log(sheet: Sheet, room: Room, log: &[u8], out: &mut Output)
    requires short { length log.now ≤ max_log }
    requires blank { out.old.bytes.items ≡ [] }
    ensures { Whole (content sheet) log.now out.new.bytes.items }
{
    let rules = sheet.rules().len();
    let mut register = Register::new(room, sheet, 0);
    let mut strip = [Verdict::No; MAX_CELLS];
    let (count, stop) = read_log(&mut register, &mut strip, log, out);
    out.add_totals(stop, count);
    out.add_rules(&register, rules);
}

impl Desk {
    // Claims the memory. It fails only for want of it, and then nothing is left behind.
    pub fn new(heap: Global) -> Result<Desk, AllocError>
        ensures { IfOk result (λ d. (d.out.bytes.items ≡ []) × (max_output ≤ vec_capacity d.out.bytes)) }
    {
        let sheet = Sheet::new(heap)?;
        let room = Room::new(heap)?;
        let out = Output::new(heap)?;
        Ok(Desk { sheet, room, out })
    }

    // All that a rules file and a log come to, as the bytes of a text. It needs no memory but the desk's, so it cannot fail.
    pub fn report(self, rules: &[u8], log: &[u8]) -> Vec<u8>
        ensures reported { Reported rules.now log.now result.items }
        ensures once { OneOutput }
    {
        let Desk {
            mut sheet,
            room,
            mut out,
        } = self;
        if is_too_long(rules.len(), log.len()) {
            out.add_line(&too_long_line());
            return out.into_bytes();
        }
        if let Err(refused) = read_rules(&mut sheet, rules) {
            let why = refused.refusal.number();
            out.add_line(&refused_line(Entry::RuleLine, refused.number, why));
            return out.into_bytes();
        }
        report_log(sheet, room, log, &mut out);
        out.into_bytes()
    }
}
