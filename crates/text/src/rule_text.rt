// Adding the rule that a text writes to a sheet.
ghost use Rattle.std.specs.Prelude.{◌≡◌};
ghost use Rattle.text.specs.Outcome.{Tells, told};
ghost use Rattle.text.specs.Laws.{TextLaws};

use crate::draft::Draft;
use crate::reader::read_rule;
use crate::refusal::TextRefusal;
use sheet::refusal::Refusal;
use sheet::row::MAX_RULES;
use sheet::sheet::Sheet;

// Adds the rows of the rule that a text writes, and then the rule, and answers the rule's number.
// A refusal leaves the sheet as it was.
#[tactic(auto, using(crate::proofs::Laws::laws))]
pub fn add_rule_text(sheet: &mut Sheet, text: &[u8]) -> Result<u8, TextRefusal>
    ensures outcome { Tells text.now sheet.old.rows.items sheet.old.rules.items sheet.new.rows.items sheet.new.rules.items (told result) }
    ensures laws { TextLaws }
{
    let mut draft = Draft::of(sheet);
    let rule = read_rule(text, &mut draft)?;
    if let Some(refusal) = draft.refusal {
        return Err(refusal.into());
    }
    if sheet.rules().len() >= MAX_RULES {
        return Err(Refusal::SheetFull.into());
    }
    // Its rows are there and a rule has room, so the rule is accepted now.
    draft.bring_onto(sheet);
    Ok(sheet.add_rule(rule)?)
}
