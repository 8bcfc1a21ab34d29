// The looking at a live trace.
ghost use Rattle.std.specs.Prelude.{◌≡◌};
ghost use Rattle.register.specs.History.{Begun};
ghost use Rattle.register.specs.State.{state, OpenFor};
ghost use Rattle.report.specs.Counts.{sheet_of};
ghost use Rattle.exports.specs.Failures.{answered};
ghost use Rattle.exports.specs.Peeking.{NotedAll, Seen, Peeked, verdict_number};

use crate::answer::{Failure, answer};
use crate::rules::ruled_sheet;
use label::verdict::Verdict;
use register::refusal::Refusal;
use register::register::Register;
use register::room::Room;
use register::slip::{Slip, Unclosed};
use std::alloc::Global;

// Notes codes one after another, up to the first that is refused.
fn note_all(register: &mut Register, slip: &Slip, codes: &[u8]) -> Result<(), Refusal>
    requires { OpenFor register.old slip.now.mark }
    ensures open { OpenFor register.new slip.now.mark }
    ensures noted { NotedAll codes.now (state register.old) result (state register.new) }
{
    for code in codes {
        register.note(slip, *code)?;
    }
    Ok(())
}

// Sets the open trace aside. Its slip is the right one, so that cannot be refused.
fn put_away(register: &mut Register, slip: Slip)
    requires { OpenFor register.old slip.mark }
{
    match register.set_aside(slip) {
        Ok(()) => {}
        Err(
            Unclosed {
                slip: _slip,
                why: _,
            },
        ) => unreachable(),
    }
}

// Opens a trace, notes the codes, looks at an instant, and sets the trace aside.
fn peek_once(
    register: &mut Register,
    codes: &[u8],
    rule: usize,
    instant: usize,
) -> Result<(Verdict, Verdict), Refusal>
    requires { Begun (sheet_of register.old) 0 register.old }
    ensures { Seen (sheet_of register.old) codes.now rule instant result }
{
    let slip = register.open()?;
    let seen = match note_all(register, &slip, codes) {
        Ok(()) => register.peek(&slip, rule, instant),
        Err(why) => Err(why),
    };
    put_away(register, slip);
    seen
}

// The number of a verdict.
fn verdict_number(verdict: Verdict) -> u8
    ensures { result ≡ verdict_number verdict }
{
    verdict as u8
}

// Puts the numbers of the standing verdicts of a rule's activator and target at an instant of the codes into the two places.
fn peek(
    heap: Global,
    rules: &[u8],
    codes: &[u8],
    rule: usize,
    instant: usize,
    activator: &mut u8,
    target: &mut u8,
) -> Result<(), Failure>
    ensures { Peeked rules.now codes.now rule instant activator.old target.old activator.new target.new (answered result) }
{
    let room = Room::new(heap)?;
    let sheet = ruled_sheet(heap, rules)?;
    let mut register = Register::new(room, sheet, 0);
    let (a, t) = peek_once(&mut register, codes, rule, instant)?;
    *activator = verdict_number(a);
    *target = verdict_number(t);
    Ok(())
}

// The standing verdicts of a rule's activator and target at an instant of the codes, as 0 for no, 1 for open and 2 for yes.
#[unsafe(no_mangle)]
pub extern "C" fn kurzhelim_peek(
    heap: Global,
    rules: &[u8],
    codes: &[u8],
    rule: usize,
    instant: usize,
    activator: &mut u8,
    target: &mut u8,
) -> u32
    ensures { Peeked rules.now codes.now rule instant activator.old target.old activator.new target.new result }
{
    answer(peek(heap, rules, codes, rule, instant, activator, target))
}
