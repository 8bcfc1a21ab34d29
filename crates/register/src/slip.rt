// The token of an open trace, which only closing the trace or setting it aside spends.
ghost use Rattle.std.specs.Prelude.{◌≡◌, false, IsTrue};

use crate::refusal::Refusal;

// The token of an open trace, with the mark of its register. Only a spent slip may be let go, and no call answers one, so no program
// that lets a slip go is accepted.
pub struct Slip {
    mark: u32,
    // Whether its trace was closed or set aside.
    spent: bool,
}

impl Slip {
    // The slip of a register with this mark.
    pub(crate) fn new(mark: u32) -> Slip
        ensures mark { result.mark ≡ mark }
        ensures unspent { result.spent ≡ false }
    {
        Slip { mark, spent: false }
    }

    // The mark of the register that the slip came from.
    pub fn mark(&self) -> u32
        ensures { result ≡ self.now.mark }
    {
        self.mark
    }

    // Spends the slip, and lets it go.
    pub(crate) fn spend(mut self) {
        self.spent = true;
    }
}

impl Drop for Slip {
    fn drop(self)
        requires { IsTrue self.spent }
    {
        let Slip { mark: _, spent: _ } = self;
    }
}

// A trace that was not closed or set aside: its slip is handed back, with the reason.
pub struct Unclosed {
    pub slip: Slip,
    pub why: Refusal,
}
