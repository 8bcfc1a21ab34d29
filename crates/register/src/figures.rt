// A rule's figures, and what a reading of the register answers.
ghost use Rattle.std.specs.Prelude.{◌≡◌, ◌+◌, ◌^◌, ◌<◌};
ghost use Rattle.register.specs.Sums as Sums;

// The tallies of instants by what holds there, the number of triggered traces, and the sum of the traces' degrees in
// millionths. Programs in other languages are lent it too, so it is laid out as in C.
#[derive(Clone, Copy, PartialEq, Eq, Debug, Default)]
#[repr(C)]
pub struct Figures {
    // Activator and target hold.
    pub both: u64,
    // The activator holds alone.
    pub act: u64,
    // The target holds alone.
    pub tgt: u64,
    // Neither holds.
    pub none: u64,
    pub triggered: u64,
    pub degrees: u64,
}

// A rule's figures over all traces added, with the number of traces and of instants; the support, which is both and all
// instants; and the confidence, which is both, and both with act.
#[derive(Clone, Copy, PartialEq, Eq, Debug)]
pub struct Told {
    pub figures: Figures,
    pub traces: u64,
    pub instants: u64,
    // Absent where there is no instant.
    pub support: Option<(u64, u64)>,
    // Absent where no activator held.
    pub confidence: Option<(u64, u64)>,
}

// A part and its whole, unless the whole is nothing.
fn share(part: u64, whole: u64) -> Option<(u64, u64)>
    ensures { result ≡ Sums.support part whole }
{
    if whole == 0 {
        None
    } else {
        Some((part, whole))
    }
}

// What is told of a rule with these figures.
pub(crate) fn telling(figures: Figures, traces: u64, instants: u64) -> Told
    requires { figures.both + figures.act < 2 ^ 64 }
    ensures { result ≡ Sums.telling figures traces instants }
{
    Told {
        figures,
        traces,
        instants,
        support: share(figures.both, instants),
        confidence: share(figures.both, figures.both + figures.act),
    }
}
