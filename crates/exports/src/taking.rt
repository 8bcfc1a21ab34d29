// The taking in of one trace.
ghost use Rattle.std.specs.Prelude.{◌≡◌, ◌≤◌, ◌++◌, length, drop};
ghost use Rattle.register.specs.Contents.{content};
ghost use Rattle.register.specs.State.{state};
ghost use Rattle.report.specs.Counts.{sheet_of};
ghost use Rattle.report.specs.Traces.{trace_of};
ghost use Rattle.exports.specs.Failures.{answered};
ghost use Rattle.exports.specs.Taking.{OneTrace, Taken};

use crate::answer::{Failure, answer};
use crate::rules::ruled_sheet;
use label::labelling::MAX_CELLS;
use label::verdict::Verdict;
use logfile::record::Kind;
use register::figures::Figures;
use register::register::Register;
use register::room::Room;
use report::records::take_record;
use sheet::sheet::Sheet;
use std::alloc::Global;

// Copies the figures of each rule of a register, in their order. `rules` is how many there are.
fn copy_figures(register: &Register, rules: usize, figures: &mut [Figures])
    requires all { rules ≡ length (sheet_of register.now).rules }
    requires room { rules ≤ length figures.old }
    ensures { figures.new ≡ (state register.now).held.sums ++ drop rules figures.old }
{
    let front = &mut figures[..rules];
    for (k, place) in front.iter_mut().enumerate() {
        if let Ok(told) = register.read(k) {
            *place = told.figures;
        }
    }
}

// Takes in the trace of one record by the rules of a sheet, and copies the figures of each rule.
fn take_one(
    room: Room,
    sheet: Sheet,
    kind: Kind,
    body: &[u8],
    figures: &mut [Figures],
) -> Result<(), Failure>
    ensures { OneTrace (content sheet) (trace_of kind body.now) figures.old figures.new (answered result) }
{
    let rules = sheet.rules().len();
    if figures.len() < rules {
        return Err(Failure::ShortSlice);
    }
    let mut register = Register::new(room, sheet, 0);
    let mut strip = [Verdict::No; MAX_CELLS];
    take_record(&mut register, kind, body, &mut strip)?;
    copy_figures(&register, rules, figures);
    Ok(())
}

// Takes in the trace of one record of the kind that this byte tells, by the rules of these lines, into a register of its own, and
// writes the figures of each rule.
fn take_in(
    heap: Global,
    rules: &[u8],
    kind: u8,
    body: &[u8],
    figures: &mut [Figures],
) -> Result<(), Failure>
    ensures { Taken rules.now kind body.now figures.old figures.new (answered result) }
{
    let kind = Kind::try_from(kind)?;
    let room = Room::new(heap)?;
    let sheet = ruled_sheet(heap, rules)?;
    take_one(room, sheet, kind, body, figures)
}

// Takes in the trace of one record of the kind that this byte tells, by the rules of these lines, into a register of its own, writes
// the figures of each rule, and answers by a number: 0, or why it was not done.
#[unsafe(no_mangle)]
pub extern "C" fn kurzhelim_take_in(
    heap: Global,
    rules: &[u8],
    kind: u8,
    body: &[u8],
    figures: &mut [Figures],
) -> u32
    ensures { Taken rules.now kind body.now figures.old figures.new result }
{
    answer(take_in(heap, rules, kind, body, figures))
}
