// The standing verdicts of a rule at one instant of a trace that may go on.
ghost use Rattle.std.specs.Prelude.{◌≡◌, ◌<◌, ◌≤◌, length, vec_len};
ghost use Rattle.label.specs.Labels.{label_at};
ghost use Rattle.label.specs.declared.verdict.Verdict.TheVariants.{Open};
ghost use Rattle.register.specs.Bounds.{Coded};
ghost use Rattle.register.specs.Contents.{coded_trace};
ghost use Rattle.register.specs.Limits.{max_instants};

use crate::tally::Labels;
use bottoms::codes::Codes;
use label::labelling::{MAX_CELLS, stand};
use label::verdict::Verdict;
use sheet::row::Rule;
use sheet::sheet::Sheet;
use trace::source::Source;

// The verdicts of the rule's activator and target at an instant of the codes noted.
pub(crate) fn standing(
    sheet: &Sheet,
    codes: &[u8],
    rule: Rule,
    instant: usize,
) -> (Verdict, Verdict)
    requires few { length codes.now ≤ max_instants }
    requires coded { Coded codes.now }
    requires low { 1 ≤ instant }
    requires high { instant ≤ length codes.now }
    requires activator { rule.activator < vec_len sheet.now.rows }
    requires target { rule.target < vec_len sheet.now.rows }
    ensures activator { result.0 ≡ label_at Open (coded_trace codes.now) sheet.now.rows.items instant rule.activator }
    ensures target { result.1 ≡ label_at Open (coded_trace codes.now) sheet.now.rows.items instant rule.target }
{
    let mut strip = [Verdict::No; MAX_CELLS];
    let _ = stand(sheet, &Codes::new(codes), &mut strip);
    let labels = Labels {
        strip: &strip,
        rows: sheet.rows().len(),
        instants: codes.len(),
    };
    let activator = labels.at(instant - 1, rule.activator);
    let target = labels.at(instant - 1, rule.target);
    (activator, target)
}
