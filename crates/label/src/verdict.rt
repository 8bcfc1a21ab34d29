// Verdicts, in the order no, open, yes.
ghost use Rattle.std.specs.Prelude.{◌≡◌, Some};
ghost use Rattle.label.specs.Verdicts.{lower, higher, swapped, yes_if, spelled};

use std::fmt;

// Whether a row holds at an instant. A verdict takes one byte, so a strip's cells are its bytes.
#[derive(Clone, Copy, PartialEq, Eq, PartialOrd, Ord, Debug)]
pub enum Verdict {
    // It does not.
    No,
    // The trace does not tell yet.
    Open,
    // It does.
    Yes,
}

impl Verdict {
    // The lower of the two.
    pub fn and(self, other: Verdict) -> Verdict
        ensures { result ≡ lower self other }
    {
        self.min(other)
    }

    // The higher of the two.
    pub fn or(self, other: Verdict) -> Verdict
        ensures { result ≡ higher self other }
    {
        self.max(other)
    }

    // Yes and no change places; open stays.
    pub fn not(self) -> Verdict
        ensures { result ≡ swapped self }
    {
        match self {
            Verdict::No => Verdict::Yes,
            Verdict::Open => Verdict::Open,
            Verdict::Yes => Verdict::No,
        }
    }
}

// Yes where the flag is set, and no where it is not.
impl From<bool> for Verdict {
    ghost from_gives = { λ flag verdict. verdict ≡ yes_if flag };

    fn from(flag: bool) -> Verdict {
        if flag { Verdict::Yes } else { Verdict::No }
    }
}

// The verdict in a word.
impl fmt::Display for Verdict {
    ghost output = { λ v. Some (spelled v) };

    fn fmt<W: fmt::Write>(&self, f: &mut fmt::Formatter<W>) -> fmt::Result {
        f.write_str(match self {
            Verdict::No => "no",
            Verdict::Open => "open",
            Verdict::Yes => "yes",
        })
    }
}
