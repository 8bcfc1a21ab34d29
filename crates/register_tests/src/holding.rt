// Tests of the calls on a live trace. A slip cannot be let go, so a test that holds one gathers its answers first, puts the
// slip away, and only then checks them.
ghost use Rattle.register.specs.State.{OpenFor};

use crate::common::{register, told};
use label::verdict::Verdict;
use register::register::Register;
use register::slip::{Slip, Unclosed};
use std::test::Fail;

// Sets the open trace aside, which the right slip always can.
fn put_away(register: &mut Register, slip: Slip)
    requires { OpenFor register.old slip.mark }
{
    match register.set_aside(slip) {
        Ok(()) => {}
        Err(_) => unreachable(),
    }
}

// Notes a code, and tells the answer. The trace stays open, whatever comes of it.
fn note(register: &mut Register, slip: &Slip, code: u8) -> u8
    requires { OpenFor register.old slip.now.mark }
    ensures { OpenFor register.new slip.now.mark }
{
    told(register.note(slip, code))
}

// Notes a code so many times, and tells the last answer.
fn note_all(register: &mut Register, slip: &Slip, code: u8, times: usize) -> u8
    requires { OpenFor register.old slip.now.mark }
    ensures { OpenFor register.new slip.now.mark }
{
    let mut last = 0;
    for _k in 0..times {
        last = note(register, slip, code);
    }
    last
}

// The refusals of notes and peeks, in order, in a trace that comes to be as long as it may be.
fn live_answers(register: &mut Register) -> Option<[u8; 9]> {
    let Ok(slip) = register.open() else {
        return None;
    };
    let early = told(register.peek(&slip, 0, 1));
    let high = note(register, &slip, 64);
    let all = note_all(register, &slip, 63, 1024);
    let long = note(register, &slip, 63);
    let high_first = note(register, &slip, 64);
    let rule_first = told(register.peek(&slip, 1, 0));
    let zero = told(register.peek(&slip, 0, 0));
    let last = told(register.peek(&slip, 0, 1024));
    let past = told(register.peek(&slip, 0, 1025));
    put_away(register, slip);
    Some([
        early, high, all, long, high_first, rule_first, zero, last, past,
    ])
}

// Code 63 is noted and 64 is not; the 1,024th note is accepted and the next is not; a peek takes the instants noted.
#[test]
fn edges(rt: HostRuntime) -> Result<(), Fail> {
    let mut register = register(rt.alloc(), 7)?;
    assert!(rt; live_answers(&mut register) == Some([9, 7, 0, 8, 7, 10, 9, 0, 9]));
    Ok(())
}

// Opens a trace in one register, tells what another makes of its slip, and what a second opening is told.
fn other_answers(register: &mut Register, other: &mut Register) -> Option<[u8; 3]> {
    let Ok(slip) = register.open() else {
        return None;
    };
    let closed = told(other.note(&slip, 0));
    let peeked = told(other.peek(&slip, 9, 0));
    put_away(register, slip);
    let Ok(slip) = register.open() else {
        return None;
    };
    let mine = note(register, &slip, 0);
    put_away(register, slip);
    Some([closed, peeked, mine])
}

// A slip of another mark is wrong, before all else.
#[test]
fn marks(rt: HostRuntime) -> Result<(), Fail> {
    let mut first = register(rt.alloc(), 7)?;
    let mut second = register(rt.alloc(), 8)?;
    assert!(rt; other_answers(&mut first, &mut second) == Some([6, 6, 0]));
    Ok(())
}

// Closes a trace of these codes into the strip, and tells the refusal; a refused one is set aside.
fn close_answer(
    register: &mut Register,
    code: u8,
    times: usize,
    strip: &mut [Verdict],
) -> Option<u8> {
    let Ok(slip) = register.open() else {
        return None;
    };
    let _ = note_all(register, &slip, code, times);
    match register.close(slip, strip) {
        Ok(_) => Some(0),
        Err(Unclosed { slip, why }) => {
            put_away(register, slip);
            Some(why.number())
        }
    }
}

// A blank trace is not closed, nor one whose strip has a cell too few; a closed one is counted.
#[test]
fn closes(rt: HostRuntime) -> Result<(), Fail> {
    let mut register = register(rt.alloc(), 7)?;
    let mut strip = [Verdict::No; 8];
    assert_eq!(rt; close_answer(&mut register, 0, 0, &mut strip), Some(1));
    assert_eq!(rt;
        close_answer(&mut register, 0, 2, &mut [Verdict::No; 7]),
        Some(3)
    );
    assert_eq!(rt; close_answer(&mut register, 0, 2, &mut strip), Some(0));
    let Ok(all) = register.read(0) else {
        return Err(Fail::new("no rule"));
    };
    assert_eq!(rt; all.traces, 1);
    assert_eq!(rt; all.figures.act, 2);
    Ok(())
}
