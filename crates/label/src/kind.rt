// The kinds of verdict: what is known beyond the last event of a trace.
ghost use Rattle.std.specs.Prelude.{◌≡◌};
ghost use Rattle.label.specs.declared.verdict.Verdict.{Verdict};
ghost use Rattle.label.specs.declared.verdict.Verdict.TheVariants.{No, Open};

use crate::verdict::Verdict;

// A kind of verdict.
pub trait VerdictKind {
    // The verdict beyond the last event.
    ghost after: { Verdict };

    // The verdict beyond the last event, to work with.
    fn beyond() -> Verdict
        ensures { result ≡ after };
}

// Verdicts on a trace that is closed: nothing comes beyond its last event.
pub struct Settled;

// Verdicts on a trace that is not yet closed: what comes beyond its last event is not known.
pub struct Standing;

impl VerdictKind for Settled {
    ghost after = { No };

    fn beyond() -> Verdict {
        Verdict::No
    }
}

impl VerdictKind for Standing {
    ghost after = { Open };

    fn beyond() -> Verdict {
        Verdict::Open
    }
}
