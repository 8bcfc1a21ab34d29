// The installer's day at one machine: live traces are noted and peeked at, one is set aside and one is closed; a recorded trace is
// taken in, and one of another maker's recorder is refused with its fault told whole; and a second register, on the mirrored
// sheet and fed the reversed traces, comes to the same figures.
#![tactic(auto)]

mod board;
mod figures;
mod live;

use board::Board;
use bottoms::codes::Codes;
use figures::show_side_by_side;
use label::verdict::Verdict;
use layers::reversed::Reversed;
use live::live_trace;
use register::refusal::Refusal;
use register::register::Register;
use register::room::Room;
use sheet::sheet::Sheet;
use std::io;
use text::rule_text::add_rule_text;
use trace::source::Source;

// The two rules: after each top stop (0) a counted repetition (1) follows; before each top stop the pin was moved (3).
const RULES: [&str; 2] = ["s0 => (true until s1)", "s0 => (true since s3)"];

// The live trace that is closed, and the recorded one that is taken in.
const LIVE: [u8; 5] = [3, 2, 0, 1, 0];

const RECORDED: [u8; 4] = [2, 0, 1, 3];

// The sheet of the two rules.
fn rules(rt: &HostRuntime) -> io::Result<Sheet> {
    let mut sheet = Sheet::new(rt.alloc())?;
    for text in RULES {
        if add_rule_text(&mut sheet, text.as_bytes()).is_err() {
            return Err(io::Error::other("a rule was refused"));
        }
    }
    Ok(sheet)
}

// Prints what came of taking in a trace, a fault whole.
fn show_taken(rt: &HostRuntime, name: &str, answer: Result<usize, Refusal>) -> io::Result<()> {
    match answer {
        Ok(instants) => println!(rt; "{name}: taken in, {instants} instants"),
        Err(refusal) => {
            println!(rt; "{name}: refused {refusal}")?;
            let Refusal::Unreadable(found) = refusal else {
                return Ok(());
            };
            let instant = found.instant;
            let fault = found.fault;
            println!(rt;
                "  instant {instant}: cause {}, place {}, layers {}",
                fault.cause, fault.place, fault.layers
            )
        }
    }
}

// Takes in the trace behind a source, and prints what came of it.
fn take<S: Source>(
    rt: &HostRuntime,
    register: &mut Register,
    name: &str,
    source: &S,
) -> io::Result<()> {
    let mut strip = [Verdict::No; 512];
    let answer = register.take_in(source, &mut strip);
    show_taken(rt, name, answer)
}

// The first register: live traces, a recorded one, and one that cannot be read.
fn day(rt: &HostRuntime, register: &mut Register) -> io::Result<()> {
    println!(rt; "a live trace, whose closing is refused")?;
    live_trace(rt, register, &[3, 0, 64, 2], &mut [Verdict::No; 4])?;
    println!(rt; "another live trace")?;
    live_trace(rt, register, &LIVE, &mut [Verdict::No; 512])?;
    take(rt, register, "a recorded trace", &Codes::new(&RECORDED))?;
    let board = Board {
        kilograms: [0, 20, 20, 900, 0, 0],
    };
    take(rt, register, "the board's recorder", &board)?;
    take(
        rt,
        register,
        "the same reversed",
        &Reversed { below: board },
    )
}

fn main(rt: HostRuntime) -> io::Result<()> {
    let mut register = Register::new(Room::new(rt.alloc())?, rules(&rt)?, 7);
    day(&rt, &mut register)?;
    println!(rt; "a second register, on the mirrored sheet, is fed the reversed traces")?;
    let mut mirrored = Register::mirrored(Room::new(rt.alloc())?, rules(&rt)?, 8);
    let recorded = Codes::new(&RECORDED);
    take(
        &rt,
        &mut mirrored,
        "the recorded trace",
        &Reversed { below: recorded },
    )?;
    let live = Codes::new(&LIVE);
    take(
        &rt,
        &mut mirrored,
        "the live trace",
        &Reversed { below: live },
    )?;
    show_side_by_side(&rt, &register, &mirrored, RULES.len())
}
