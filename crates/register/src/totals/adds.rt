// The addition of one more trace.
ghost use Rattle.std.specs.Prelude.{◌≡◌, length};
ghost use Rattle.register.specs.Answers.{strip_after};
ghost use Rattle.register.specs.State.{held, held_after, add_answer};

use crate::refusal::Refusal;
use crate::tally::Labels;
use crate::totals::{MAX_TRACES, Totals};
use label::labelling::settle;
use label::verdict::Verdict;
use trace::source::Source;

impl Totals {
    // Labels the trace behind a source into the strip, adds its figures, and answers how many instants it has; or refuses and
    // leaves all as it is.
    pub(crate) fn add<S: Source>(
        &mut self,
        source: &S,
        strip: &mut [Verdict],
    ) -> Result<usize, Refusal>
        ensures answer { result ≡ add_answer (held self.old) (length (S.readings source.now)) (length strip.old) }
        ensures sums { held self.new ≡ held_after result (held self.old) (S.readings source.now) }
        ensures strip { strip.new ≡ strip_after result (S.readings source.now) self.old.sheet.rows.items strip.old }
    {
        if self.traces >= MAX_TRACES {
            return Err(Refusal::Full);
        }
        let n = settle(&self.sheet, source, strip)?;
        let labels = Labels {
            strip,
            rows: self.sheet.rows().len(),
            instants: n,
        };
        labels.add_all(&mut self.figures, self.sheet.rules());
        self.traces += 1;
        self.instants += n as u64;
        Ok(n)
    }
}
