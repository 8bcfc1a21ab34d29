// Labelling from the other end: a mirrored sheet on a reversed trace.
#![tactic(auto)]

ghost use Rattle.std.specs.Prelude.{◌≡◌, map, length, vec_len};
ghost use Rattle.sheet.specs.Rows.{mirror_row};
ghost use Rattle.layers.specs.Layers.{reversed};
ghost use Rattle.label.specs.Refusals.{told};
ghost use Rattle.label.specs.Strips.{label_answer, labelled};
ghost use Rattle.label.specs.declared.verdict.Verdict.TheVariants.{No};
ghost use Rattle.mirroring.specs.Mirroring.{FromTheEnd};

use label::labelling::settle;
use label::refusal::Refusal;
use label::verdict::Verdict;
use layers::reversed::Reversed;
use sheet::sheet::Sheet;
use trace::source::Source;

// Settles the mirrored sheet on the reversed trace: its cells, from the other end, are those of the sheet on the trace.
pub fn settle_mirrored<S: Source + Drop>(
    sheet: Sheet,
    source: S,
    strip: &mut [Verdict],
) -> Result<usize, Refusal>
    ensures answer { result ≡ label_answer (length (S.Source.readings source)) (vec_len sheet.rows) (length strip.old) }
    ensures told { told result ≡ told (label_answer (length (S.Source.readings source)) (vec_len sheet.rows) (length strip.old)) }
    ensures cells { strip.new ≡ labelled result No (reversed (S.Source.readings source)) (map mirror_row sheet.rows.items) strip.old }
    ensures mirror { FromTheEnd result (S.Source.readings source) sheet.rows.items strip.new }
{
    let mirrored = sheet.mirrored();
    let reversed = Reversed { below: source };
    settle(&mirrored, &reversed, strip)
}
