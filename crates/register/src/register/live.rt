// The calls on a live trace that add no figures, and the reading of a rule's figures: open, note, peek, set aside, read.
ghost use Rattle.std.specs.Prelude.{◌≡◌, false, IfOk, IfErr};
ghost use Rattle.register.specs.Answers.{of_slip, of_done, of_verdicts, of_aside, of_told, HandedBack};
ghost use Rattle.register.specs.Calls.{opening, noting, peeking, setting_aside, reading, wrong};
ghost use Rattle.register.specs.Examples.{LinesHold};
ghost use Rattle.register.specs.History.{Asked};
ghost use Rattle.register.specs.State.{state};

use crate::figures::{Told, telling};
use crate::refusal::Refusal;
use crate::register::Register;
use crate::slip::{Slip, Unclosed};
use crate::standing::standing;
use label::verdict::Verdict;
use trace::source::MAX_INSTANTS;
use trace::symbols::SYMBOLS;

impl Register {
    // Whether the slip is not that of the open trace.
    pub(super) fn is_wrong(&self, slip: &Slip) -> bool
        ensures { result ≡ wrong self.now.mark slip.now.mark (state self.now).opened }
    {
        !self.live || slip.mark() != self.mark
    }

    // Begins a live trace, and answers its slip.
    pub fn open(&mut self) -> Result<Slip, Refusal>
        ensures called { Asked self.old opening self.new (of_slip result) }
        ensures unspent { IfOk result (λ slip. slip.spent ≡ false) }
    {
        if self.live {
            return Err(Refusal::AlreadyOpen);
        }
        self.codes.clear();
        self.live = true;
        Ok(Slip::new(self.mark))
    }

    // Adds a code to the open trace: one more instant, at which that one symbol holds.
    pub fn note(&mut self, slip: &Slip, code: u8) -> Result<(), Refusal>
        ensures { Asked self.old (noting slip.now.mark code) self.new (of_done result) }
    {
        if self.is_wrong(slip) {
            return Err(Refusal::WrongSlip);
        }
        if code >= SYMBOLS {
            return Err(Refusal::NoCode);
        }
        if self.codes.len() >= MAX_INSTANTS {
            return Err(Refusal::Long);
        }
        self.codes.push_reserved(code);
        Ok(())
    }

    // The standing verdicts of a rule's activator and target at an instant noted.
    pub fn peek(
        &self,
        slip: &Slip,
        rule: usize,
        instant: usize,
    ) -> Result<(Verdict, Verdict), Refusal>
        ensures { Asked self.now (peeking slip.now.mark rule instant) self.now (of_verdicts result) }
    {
        if self.is_wrong(slip) {
            return Err(Refusal::WrongSlip);
        }
        let rules = self.totals.sheet.rules();
        if rule >= rules.len() {
            return Err(Refusal::NoRule);
        }
        let n = self.codes.len();
        if instant == 0 || instant > n {
            return Err(Refusal::NoInstant);
        }
        let pair = rules[rule];
        let codes = self.codes.as_slice();
        Ok(standing(&self.totals.sheet, codes, pair, instant))
    }

    // Drops the open trace uncounted and spends its slip; a refusal hands the slip back.
    pub fn set_aside(&mut self, slip: Slip) -> Result<(), Unclosed>
        ensures called { Asked self.old (setting_aside slip.mark) self.new (of_aside result) }
        ensures back { HandedBack slip.mark result }
        ensures as_it_was { IfErr result (λ unclosed. unclosed.slip.spent ≡ slip.spent) }
    {
        if self.is_wrong(&slip) {
            let why = Refusal::WrongSlip;
            return Err(Unclosed { slip, why });
        }
        self.live = false;
        slip.spend();
        Ok(())
    }

    // A rule's figures over the traces added so far. With it stands the table of worked examples.
    pub fn read(&self, rule: usize) -> Result<Told, Refusal>
        ensures called { Asked self.now (reading rule) self.now (of_told result) }
        ensures examples { LinesHold }
    {
        if rule >= self.totals.sheet.rules().len() {
            return Err(Refusal::NoRule);
        }
        let figures = self.totals.figures[rule];
        Ok(telling(figures, self.totals.traces, self.totals.instants))
    }
}
