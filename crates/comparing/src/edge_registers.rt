// The edges: strips with just enough cells, the longest records and live traces, and the fullest register.
ghost use Rattle.std.specs.Prelude.{◌≡◌};
ghost use Rattle.register.specs.State.{OpenFor};

use crate::labels::CELLS;
use crate::live::finish;
use crate::registers::answered;
use crate::trial::Trial;
use bottoms::codes::Codes;
use label::labelling::settle;
use label::verdict::Verdict;
use register::register::Register;
use register::room::Room;
use register::slip::Slip;
use sampling::records::filled;
use sampling::tally::Tally;
use sheet::row::{Row, Rule};
use sheet::sheet::Sheet;
use std::alloc::Global;
use std::io;

// A sheet of so many rows, each of symbol 5, and one rule.
fn plain_sheet(heap: Global, rows: usize) -> io::Result<Sheet> {
    let mut sheet = Sheet::new(heap)?;
    for _ in 0..rows {
        let _ = sheet.add_row(Row::Symbol(5));
    }
    let _ = sheet.add_rule(Rule {
        activator: 0,
        target: 0,
    });
    Ok(sheet)
}

// Labels a record of codes into a strip of so many cells, and answers the number of instants, or of the refusal.
fn label_into(sheet: &Sheet, bytes: &[u8], cells: usize) -> Result<usize, u8> {
    let mut strip = [Verdict::Open; CELLS];
    let end = cells.min(CELLS);
    settle(sheet, &Codes::new(bytes), &mut strip[0..end]).map_err(|refusal| refusal.number())
}

// Compares labelling n instants for m rows with n x m cells, and with one fewer.
fn compare_cells(trial: &mut Trial, n: usize, m: usize) -> io::Result<()> {
    let sheet = plain_sheet(trial.heap, m)?;
    let bytes = filled(trial.heap, n, 5)?;
    let just = n.saturating_mul(m);
    trial.tally.note(label_into(&sheet, &bytes, just) == Ok(n));
    trial.tally.note(label_into(&sheet, &bytes, just.saturating_sub(1)) == Err(3));
    Ok(())
}

// Compares strips with just enough cells and with one fewer.
pub(crate) fn edge_strips(trial: &mut Trial) -> io::Result<()> {
    for m in 1..=32usize {
        compare_cells(trial, m, m)?;
        compare_cells(trial, 1, m)?;
    }
    compare_cells(trial, 1024, 1)
}

// Compares taking in a record of n codes: more than 1,024 of them cannot be read.
fn compare_long(trial: &mut Trial, n: usize) -> io::Result<()> {
    let mut register = Register::new(Room::new(trial.heap)?, plain_sheet(trial.heap, 1)?, 7);
    let bytes = filled(trial.heap, n, 5)?;
    let mut strip = [Verdict::No; CELLS];
    let answer = answered(register.take_in(&Codes::new(&bytes), &mut strip));
    let fits = n <= 1024;
    trial
        .tally
        .note(answer == if fits { Ok(n) } else { Err(2) });
    let counted = if fits { n as u64 } else { 0 };
    match register.read(0) {
        Ok(told) => trial
            .tally
            .note(told.figures.both == counted && told.instants == counted),
        Err(_) => trial.tally.note(false),
    }
    Ok(())
}

// Notes one code so many times; from the 1,025th on it is refused.
fn note_many(register: &mut Register, slip: &Slip, times: usize, tally: &mut Tally)
    requires { OpenFor register.old slip.now.mark }
    ensures { OpenFor register.new slip.now.mark }
{
    for k in 0..times {
        match register.note(slip, 5) {
            Ok(()) => tally.note(k < 1024),
            Err(refusal) => tally.note(k >= 1024 && refusal.number() == 8),
        }
    }
}

// Compares a live trace of 1,024 codes, to which three more are refused.
fn compare_long_live(trial: &mut Trial) -> io::Result<()> {
    let mut register = Register::new(Room::new(trial.heap)?, plain_sheet(trial.heap, 1)?, 7);
    let Ok(slip) = register.open() else {
        trial.tally.note(false);
        return Ok(());
    };
    note_many(&mut register, &slip, 1027, &mut trial.tally);
    let closed = finish(&mut register, slip, 1024, &mut trial.tally);
    trial.tally.note(closed);
    Ok(())
}

// Takes in a trace of one instant.
fn take_short(register: &mut Register) -> Result<usize, u8> {
    let mut strip = [Verdict::No; 1];
    answered(register.take_in(&Codes::new(&[5]), &mut strip))
}

// How many of so many traces of one instant a register takes in.
fn take_many(register: &mut Register, times: usize) -> usize {
    let mut taken = 0usize;
    for _ in 0..times {
        if take_short(register).is_ok() {
            taken = taken.saturating_add(1);
        }
    }
    taken
}

// Compares a register with its 1,000,000 traces: the next one is refused as full.
fn compare_full(trial: &mut Trial) -> io::Result<()> {
    let mut register = Register::new(Room::new(trial.heap)?, plain_sheet(trial.heap, 1)?, 7);
    trial
        .tally
        .note(take_many(&mut register, 1_000_000) == 1_000_000);
    trial.tally.note(take_short(&mut register) == Err(4));
    match register.read(0) {
        Ok(told) => trial
            .tally
            .note(told.traces == 1_000_000 && told.figures.both == 1_000_000),
        Err(_) => trial.tally.note(false),
    }
    Ok(())
}

// Compares the longest records and live traces, and the fullest register.
pub(crate) fn edge_registers(trial: &mut Trial) -> io::Result<()> {
    compare_long(trial, 1024)?;
    compare_long(trial, 1025)?;
    compare_long_live(trial)?;
    compare_full(trial)
}
