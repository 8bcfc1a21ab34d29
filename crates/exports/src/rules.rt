// The reading of rule lines onto a sheet of its own.
ghost use Rattle.std.specs.Result.{MatchResult};
ghost use Rattle.register.specs.Contents.{content};
ghost use Rattle.exports.specs.Failures.{number_of};
ghost use Rattle.exports.specs.Rules.{SheetOf, NoSheet, CountedRules};

use crate::answer::Failure;
use report::rules::read_rules;
use sheet::sheet::Sheet;
use std::alloc::Global;

// A sheet with the rules of these lines, or why there is none.
pub(crate) fn ruled_sheet(heap: Global, rules: &[u8]) -> Result<Sheet, Failure>
    ensures { MatchResult result (λ s. SheetOf rules.now (content s)) (λ e. NoSheet rules.now (number_of e)) }
{
    let mut sheet = Sheet::new(heap)?;
    read_rules(&mut sheet, rules)?;
    Ok(sheet)
}

// Reads rule lines, and answers how many rules they write, or the number of the refusal.
#[unsafe(no_mangle)]
pub extern "C" fn kurzhelim_rule_text(heap: Global, rules: &[u8]) -> u32
    ensures { CountedRules rules.now result }
{
    match ruled_sheet(heap, rules) {
        Ok(sheet) => sheet.rules().len() as u32,
        Err(failure) => u32::from(failure),
    }
}
