// Labelling a trace: one text for every kind of verdict and every source, and its two uses.
ghost use Rattle.std.specs.Prelude.{◌≡◌, ◌≤◌, length, vec_len};
ghost use Rattle.label.specs.Refusals.{told};
ghost use Rattle.label.specs.Strips.{label_answer, labelled};
ghost use Rattle.label.specs.Examples.{ExamplesHold};
ghost use Rattle.label.specs.Theorems.{SettledIsTruth, StandingIsFinal, MirrorAgrees, MirrorLabels, Truly, Finally};
ghost use Rattle.label.specs.declared.verdict.Verdict.TheVariants.{No, Open};

use crate::kind::{Settled, Standing, VerdictKind};
use crate::refusal::Refusal;
use crate::sweep::Labelling;
use crate::verdict::Verdict;
use sheet::row::MAX_ROWS;
use sheet::sheet::Sheet;
use trace::source::{MAX_INSTANTS, Source};

// The cells of the longest trace under the longest sheet.
pub const MAX_CELLS: usize = MAX_INSTANTS * MAX_ROWS;

// Labels every instant of the trace behind a source, and answers how many there are; or refuses, and leaves the strip as it is.
// With it stands the table of worked examples.
pub fn label<K: VerdictKind, S: Source>(
    sheet: &Sheet,
    source: &S,
    strip: &mut [Verdict],
) -> Result<usize, Refusal>
    ensures answer { result ≡ label_answer (length (S.readings source.now)) (vec_len sheet.now.rows) (length strip.old) }
    ensures told { told result ≡ told (label_answer (length (S.readings source.now)) (vec_len sheet.now.rows) (length strip.old)) }
    ensures cells { strip.new ≡ labelled result K.after (S.readings source.now) sheet.now.rows.items strip.old }
    ensures examples { ExamplesHold }
{
    let n = instants(source);
    if n * sheet.rows().len() > strip.len() {
        return Err(Refusal::ShortStrip);
    }
    let labelling = Labelling { sheet, source, n };
    labelling.forward::<K>(strip);
    labelling.backward::<K>(strip);
    Ok(n)
}

// How many instants a trace has.
fn instants<S: Source>(source: &S) -> usize
    ensures count { result ≡ length (S.readings source.now) }
    ensures few { result ≤ 1024 }
{
    source.len()
}

// Labels a closed trace: each cell tells whether its row holds at its instant. With it stand the laws of settled verdicts: they
// are the truth, and a mirrored sheet on the reversed trace gives the same, counted from the other end.
pub fn settle<S: Source>(sheet: &Sheet, source: &S, strip: &mut [Verdict]) -> Result<usize, Refusal>
    ensures answer { result ≡ label_answer (length (S.readings source.now)) (vec_len sheet.now.rows) (length strip.old) }
    ensures told { told result ≡ told (label_answer (length (S.readings source.now)) (vec_len sheet.now.rows) (length strip.old)) }
    ensures cells { strip.new ≡ labelled result No (S.readings source.now) sheet.now.rows.items strip.old }
    ensures truth { Truly result (S.readings source.now) sheet.now.rows.items strip.new }
    ensures law { SettledIsTruth }
    ensures mirror { MirrorAgrees }
    ensures labels { MirrorLabels }
{
    label::<Settled, S>(sheet, source, strip)
}

// Labels a trace that may go on: a yes or no stays, whatever comes. With it stands that law of standing verdicts.
pub fn stand<S: Source>(sheet: &Sheet, source: &S, strip: &mut [Verdict]) -> Result<usize, Refusal>
    ensures answer { result ≡ label_answer (length (S.readings source.now)) (vec_len sheet.now.rows) (length strip.old) }
    ensures told { told result ≡ told (label_answer (length (S.readings source.now)) (vec_len sheet.now.rows) (length strip.old)) }
    ensures cells { strip.new ≡ labelled result Open (S.readings source.now) sheet.now.rows.items strip.old }
    ensures truth { Finally result (S.readings source.now) sheet.now.rows.items strip.new }
    ensures law { StandingIsFinal }
{
    label::<Standing, S>(sheet, source, strip)
}
