// A live trace, from its opening to its closing or setting aside.
ghost use Rattle.std.specs.Prelude.{◌≡◌};
ghost use Rattle.register.specs.State.{OpenFor};

use label::verdict::Verdict;
use register::refusal::Refusal;
use register::register::Register;
use register::slip::{Slip, Unclosed};
use std::io;

// Prints a refusal by its number and word.
fn show_refusal(rt: &HostRuntime, call: &str, refusal: Refusal) -> io::Result<()> {
    println!(rt; "  {call} refused {refusal}")
}

// Prints the standing verdicts of rule 0 at an instant.
fn show_peek(rt: &HostRuntime, register: &Register, slip: &Slip, instant: usize) -> io::Result<()> {
    match register.peek(slip, 0, instant) {
        Ok((activator, target)) => {
            println!(rt; "    instant {instant}: activator {activator}, target {target}")
        }
        Err(refusal) => show_refusal(rt, "peek", refusal),
    }
}

// Notes one code. The trace stays open, whatever comes of it.
fn note(rt: &HostRuntime, register: &mut Register, slip: &Slip, code: u8) -> io::Result<bool>
    requires { OpenFor register.old slip.now.mark }
    ensures { OpenFor register.new slip.now.mark }
{
    match register.note(slip, code) {
        Ok(()) => {
            println!(rt; "  noted {code}")?;
            Ok(true)
        }
        Err(refusal) => {
            show_refusal(rt, "note", refusal)?;
            Ok(false)
        }
    }
}

// Notes codes one after another, and after each one prints what stands at instant 1 and at the last.
fn note_all(rt: &HostRuntime, register: &mut Register, slip: &Slip, codes: &[u8]) -> io::Result<()>
    requires { OpenFor register.old slip.now.mark }
    ensures { OpenFor register.new slip.now.mark }
{
    let mut last = 0usize;
    for code in codes {
        if note(rt, register, slip, *code)? {
            last = last.saturating_add(1);
            show_peek(rt, register, slip, 1)?;
            show_peek(rt, register, slip, last)?;
        }
    }
    Ok(())
}

// Sets the open trace aside. Its slip is the right one, so that cannot be refused.
fn put_away(register: &mut Register, slip: Slip)
    requires { OpenFor register.old slip.mark }
{
    match register.set_aside(slip) {
        Ok(()) => {}
        Err(
            Unclosed {
                slip: _slip,
                why: _,
            },
        ) => unreachable(),
    }
}

// Closes the open trace, and sets it aside where closing is refused.
fn finish(
    rt: &HostRuntime,
    register: &mut Register,
    slip: Slip,
    strip: &mut [Verdict],
) -> io::Result<()>
    requires { OpenFor register.old slip.mark }
{
    match register.close(slip, strip) {
        Ok(instants) => println!(rt; "  closed, {instants} instants"),
        Err(Unclosed { slip, why }) => {
            put_away(register, slip);
            show_refusal(rt, "close", why)?;
            println!(rt; "  set aside")
        }
    }
}

// Opens a trace, notes the codes, and closes it or sets it aside.
pub(crate) fn live_trace(
    rt: &HostRuntime,
    register: &mut Register,
    codes: &[u8],
    strip: &mut [Verdict],
) -> io::Result<()> {
    let slip = match register.open() {
        Ok(slip) => slip,
        Err(refusal) => return show_refusal(rt, "open", refusal),
    };
    let noted = note_all(rt, register, &slip, codes);
    let ended = finish(rt, register, slip, strip);
    noted?;
    ended
}
