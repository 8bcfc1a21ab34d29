// The rules file: its lines, and the rules that they add to a sheet.
ghost use Rattle.std.specs.Prelude.{◌≡◌};
ghost use Rattle.register.specs.Contents.{content};
ghost use Rattle.report.specs.Rules.{bare, lines, Ruled};

use sheet::sheet::Sheet;
use text::refusal::TextRefusal;
use text::rule_text::add_rule_text;

// The refusal of a rule: the number of its line, from 1, and why the rule is refused.
#[derive(Clone, Copy)]
pub struct RefusedLine {
    pub number: u64,
    pub refusal: TextRefusal,
}

// A text without the newline at its end, if one is there.
fn without_newline(text: &[u8]) -> &[u8]
    ensures { result.now ≡ bare text.now }
{
    text.strip_suffix(b"\n").unwrap_or(text)
}

// Adds the rule of each line to the sheet, up to the first line that is refused.
pub fn read_rules(sheet: &mut Sheet, text: &[u8]) -> Result<(), RefusedLine>
    ensures { Ruled 0 (lines text.now) (content sheet.old) result (content sheet.new) }
{
    if text.is_empty() {
        return Ok(());
    }
    let body = without_newline(text);
    for (k, line) in body.split(|b| *b == b'\n').enumerate() {
        if let Err(refusal) = add_rule_text(sheet, line) {
            let number = k as u64 + 1;
            return Err(RefusedLine { number, refusal });
        }
    }
    Ok(())
}
