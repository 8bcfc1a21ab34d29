// Why a call is not done, and the numbers by which calls answer.
ghost use Rattle.std.specs.Prelude.{◌≡◌};
ghost use Rattle.exports.specs.Failures.{number_of, answered};
ghost use Rattle.exports.specs.declared.answer.Failure.TheVariants.{NoMemory, NoKind, Line, Call};

use logfile::record::UnknownKind;
use register::refusal::Refusal;
use report::rules::RefusedLine;
use std::alloc::AllocError;

// The call was done.
const DONE: u32 = 0;

// The kind of record is none of codes, snapshots and runs.
const NO_KIND: u32 = 253;

// The lent slice has fewer places than there are rules.
const SHORT_SLICE: u32 = 254;

// There was not enough memory.
const NO_MEMORY: u32 = 255;

// Why a call is not done.
#[derive(Clone, Copy)]
pub(crate) enum Failure {
    // There was not enough memory.
    NoMemory,
    // The kind of record is none of codes, snapshots and runs.
    NoKind,
    // The lent slice has fewer places than there are rules.
    ShortSlice,
    // A rule line is refused.
    Line(RefusedLine),
    // A call on the register is refused.
    Call(Refusal),
}

// Memory that was refused.
impl From<AllocError> for Failure {
    ghost from_gives = { λ _ e. e ≡ NoMemory };

    fn from(_: AllocError) -> Failure {
        Failure::NoMemory
    }
}

// A byte that names no kind of record.
impl From<UnknownKind> for Failure {
    ghost from_gives = { λ _ e. e ≡ NoKind };

    fn from(_: UnknownKind) -> Failure {
        Failure::NoKind
    }
}

// A refused rule line, which is kept whole.
impl From<RefusedLine> for Failure {
    ghost from_gives = { λ line e. e ≡ Line line };

    fn from(line: RefusedLine) -> Failure {
        Failure::Line(line)
    }
}

// A refused call on the register, as its refusal.
impl From<Refusal> for Failure {
    ghost from_gives = { λ why e. e ≡ Call why };

    fn from(why: Refusal) -> Failure {
        Failure::Call(why)
    }
}

// The number by which a call answers that is not done: a refusal's own, or one above those.
impl From<Failure> for u32 {
    ghost from_gives = { λ e n. n ≡ number_of e };

    fn from(failure: Failure) -> u32 {
        match failure {
            Failure::NoKind => NO_KIND,
            Failure::ShortSlice => SHORT_SLICE,
            Failure::NoMemory => NO_MEMORY,
            Failure::Line(line) => u32::from(line.refusal.number()),
            Failure::Call(why) => u32::from(why.number()),
        }
    }
}

// The number by which a call answers that gives nothing else.
pub(crate) fn answer(outcome: Result<(), Failure>) -> u32
    ensures { result ≡ answered outcome }
{
    match outcome {
        Ok(()) => DONE,
        Err(failure) => u32::from(failure),
    }
}
