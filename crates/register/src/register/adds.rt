// The calls that add a trace: take in, close.
ghost use Rattle.std.specs.Prelude.{◌≡◌, length, IfErr};
ghost use Rattle.register.specs.Answers.{of_counted, of_closed, HandedBack, strip_after};
ghost use Rattle.register.specs.Calls.{taking_in, closing, noted};
ghost use Rattle.register.specs.Contents.{coded_trace};
ghost use Rattle.register.specs.History.{Asked};
ghost use Rattle.register.specs.State.{state};

use crate::refusal::Refusal;
use crate::register::Register;
use crate::slip::{Slip, Unclosed};
use bottoms::codes::Codes;
use label::verdict::Verdict;
use trace::source::Source;
use trace::unreadable::first_unreadable;

impl Register {
    // Labels the trace behind a source into the strip, adds it, and answers how many instants it has.
    pub fn take_in<S: Source>(
        &mut self,
        source: &S,
        strip: &mut [Verdict],
    ) -> Result<usize, Refusal>
        ensures called { Asked self.old (taking_in (S.readings source.now) (length strip.old)) self.new (of_counted result) }
        ensures strip { strip.new ≡ strip_after result (S.readings source.now) self.old.totals.sheet.rows.items strip.old }
    {
        if source.len() == 0 {
            return Err(Refusal::Blank);
        }
        if let Some(at) = first_unreadable(source) {
            return Err(Refusal::Unreadable(at));
        }
        self.totals.add(source, strip)
    }

    // Labels the open trace into the strip and adds it, as taking in its codes would, spends its slip, and answers how many
    // instants it has; a refusal hands the slip back, and the trace stays open.
    pub fn close(&mut self, slip: Slip, strip: &mut [Verdict]) -> Result<usize, Unclosed>
        ensures called { Asked self.old (closing slip.mark (length strip.old)) self.new (of_closed result) }
        ensures back { HandedBack slip.mark result }
        ensures as_it_was { IfErr result (λ unclosed. unclosed.slip.spent ≡ slip.spent) }
        ensures strip { strip.new ≡ strip_after result (coded_trace (noted (state self.old).opened)) self.old.totals.sheet.rows.items strip.old }
    {
        if self.is_wrong(&slip) {
            let why = Refusal::WrongSlip;
            return Err(Unclosed { slip, why });
        }
        if self.codes.len() == 0 {
            let why = Refusal::Blank;
            return Err(Unclosed { slip, why });
        }
        match self.totals.add(&Codes::new(self.codes.as_slice()), strip) {
            Ok(n) => {
                self.live = false;
                slip.spend();
                Ok(n)
            }
            Err(why) => Err(Unclosed { slip, why }),
        }
    }
}
