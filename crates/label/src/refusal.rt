// Why a trace is not labelled.
ghost use Rattle.std.specs.Prelude.{◌≡◌};
ghost use Rattle.label.specs.Refusals.{code, spelling};

// What stands in the way of labelling.
#[derive(Clone, Copy, PartialEq, Eq, Debug)]
pub enum Refusal {
    // The strip has fewer cells than the trace's instants times the sheet's rows.
    ShortStrip,
}

impl Refusal {
    // The number that the refusal is told by.
    pub fn number(self) -> u8
        ensures { result ≡ (code self).number }
    {
        match self {
            Refusal::ShortStrip => 3,
        }
    }

    // The words that the refusal is told by.
    pub fn word(self) -> &'static str
        ensures { result.now ≡ spelling self }
    {
        match self {
            Refusal::ShortStrip => "short strip",
        }
    }
}
