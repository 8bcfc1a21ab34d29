// Live traces: peek against what surely and possibly holds of the codes noted so far, and the register after a close or a setting
// aside against counted figures.
ghost use Rattle.std.specs.Prelude.{◌≡◌};
ghost use Rattle.register.specs.State.{OpenFor};

use crate::copies::same_sheet;
use crate::labels::{CELLS, agrees};
use crate::registers::compare_read;
use crate::trial::Trial;
use evaluator::standing::{Bounds, bounds_of};
use label::verdict::Verdict;
use register::register::Register;
use register::room::Room;
use register::slip::{Slip, Unclosed};
use sampling::tally::Tally;
use sheet::sheet::Sheet;
use std::io;

// Compares peek at a rule with the bounds of its activator and target, at each of n instants; on either side it is refused.
fn peek_rule(
    register: &Register,
    slip: &Slip,
    rule: usize,
    activator: Bounds,
    target: Bounds,
    n: usize,
    tally: &mut Tally,
) {
    for i in 0..=n.saturating_add(1) {
        let noted = i > 0 && i <= n;
        match register.peek(slip, rule, i) {
            Ok((a, t)) => tally.note(noted && agrees(a, activator, i) && agrees(t, target, i)),
            Err(refusal) => tally.note(!noted && refusal.number() == 9),
        }
    }
}

// Compares peek at every rule, the instants noted being these.
fn peek_all(register: &Register, slip: &Slip, sheet: &Sheet, events: &[u64], tally: &mut Tally) {
    let rows = sheet.rows();
    for (k, rule) in sheet.rules().iter().enumerate() {
        let activator = bounds_of(rows, events, usize::from(rule.activator));
        let target = bounds_of(rows, events, usize::from(rule.target));
        peek_rule(register, slip, k, activator, target, events.len(), tally);
    }
}

// Notes one code, and says whether it was noted: a code above 63 is refused. The trace stays open, whatever comes of it.
fn note(register: &mut Register, slip: &Slip, code: u8, tally: &mut Tally) -> bool
    requires { OpenFor register.old slip.now.mark }
    ensures { OpenFor register.new slip.now.mark }
{
    match register.note(slip, code) {
        Ok(()) => {
            tally.note(code <= 63);
            true
        }
        Err(refusal) => {
            tally.note(code > 63 && refusal.number() == 7);
            false
        }
    }
}

// The set of the one symbol that a code names.
fn symbol_of(code: u8) -> u64 {
    if code <= 63 { 1 << code } else { 0 }
}

// Notes codes one after another, keeps the instants noted, and compares peek after each.
fn note_all(
    register: &mut Register,
    slip: &Slip,
    sheet: &Sheet,
    codes: &[u8],
    events: &mut Vec<u64>,
    tally: &mut Tally,
) -> io::Result<()>
    requires { OpenFor register.old slip.now.mark }
    ensures { OpenFor register.new slip.now.mark }
{
    for code in codes {
        if note(register, slip, *code, tally) {
            events.push(symbol_of(*code))?;
            peek_all(register, slip, sheet, events, tally);
        }
    }
    Ok(())
}

// Sets the open trace aside. Its slip is the right one, so that cannot be refused.
fn put_away(register: &mut Register, slip: Slip)
    requires { OpenFor register.old slip.mark }
{
    match register.set_aside(slip) {
        Ok(()) => {}
        Err(
            Unclosed {
                slip: _slip,
                why: _,
            },
        ) => unreachable(),
    }
}

// Closes the open trace of n instants, and says whether it was closed; where closing is refused, sets it aside.
pub(crate) fn finish(register: &mut Register, slip: Slip, n: usize, tally: &mut Tally) -> bool
    requires { OpenFor register.old slip.mark }
{
    let mut strip = [Verdict::No; CELLS];
    match register.close(slip, &mut strip) {
        Ok(instants) => {
            tally.note(n > 0 && instants == n);
            true
        }
        Err(Unclosed { slip, why }) => {
            put_away(register, slip);
            tally.note(n == 0 && why.number() == 1);
            false
        }
    }
}

// Notes codes in an open trace, and then closes it or sets it aside. Answers whether it was closed.
fn note_and_end(
    register: &mut Register,
    slip: Slip,
    sheet: &Sheet,
    codes: &[u8],
    aside: bool,
    events: &mut Vec<u64>,
    tally: &mut Tally,
) -> io::Result<bool>
    requires { OpenFor register.old slip.mark }
{
    let noted = note_all(register, &slip, sheet, codes, events, tally);
    if aside {
        put_away(register, slip);
        noted?;
        return Ok(false);
    }
    let closed = finish(register, slip, events.len(), tally);
    noted?;
    Ok(closed)
}

// One live trace of random codes on a register, added to the plain list if it is closed.
fn live_trace(
    trial: &mut Trial,
    register: &mut Register,
    sheet: &Sheet,
    traces: &mut Vec<Vec<u64>>,
) -> io::Result<()> {
    let n = trial.random.below(7);
    let limit = if trial.random.below(5) == 0 { 70 } else { 4 };
    let codes = trial.bytes(n, limit)?;
    let aside = trial.random.below(4) == 0;
    let mut events = Vec::new(trial.heap);
    let tally = &mut trial.tally;
    let Ok(slip) = register.open() else {
        tally.note(false);
        return Ok(());
    };
    if note_and_end(register, slip, sheet, &codes, aside, &mut events, tally)? {
        traces.push(events)?;
    }
    compare_read(register, sheet, traces, tally);
    Ok(())
}

// Compares live traces on one random sheet.
fn compare_live(trial: &mut Trial) -> io::Result<()> {
    let heap = trial.heap;
    let sheet = trial.sheet()?;
    let mut register = Register::new(Room::new(heap)?, same_sheet(heap, &sheet)?, 7);
    let mut traces = Vec::new(heap);
    for _ in 0..4 {
        live_trace(trial, &mut register, &sheet, &mut traces)?;
    }
    Ok(())
}

// Compares live traces on random sheets.
pub(crate) fn live_traces(trial: &mut Trial, rounds: usize) -> io::Result<()> {
    for _ in 0..rounds {
        compare_live(trial)?;
    }
    Ok(())
}
