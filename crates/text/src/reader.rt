// The readers of formulas, groups and rules. They call one another, and put the rows of what they
// read onto a draft.
ghost use Rattle.std.specs.Prelude.{◌≡◌, suc, ◌+◌, ◌∷◌, drop, MatchResult};
ghost use Rattle.text.specs.Cursors.{Moves};
ghost use Rattle.text.specs.Drafts.{drafted};
ghost use Rattle.text.specs.Grammar.{max_depth, Refused};
ghost use Rattle.text.specs.Machine.{form, inner, Stops, Stands, Plants};

use crate::cursor::Cursor;
use crate::draft::Draft;
use crate::refusal::Misreading;
use sheet::row::Rule;

// Groups stand at most this deep inside one another.
const MAX_DEPTH: usize = 16;

// Reads a formula, in which groups may stand `left` deep, and answers the number of its row.
#[cycle(formula_group)]
fn formula(cursor: &mut Cursor, left: usize, out: &mut Draft) -> Result<u8, Misreading>
    ensures { Moves cursor.old cursor.new (λ s p q. MatchResult result (λ r. Stands s (drop p s) (λ j k. form (left + j) ∷ k) p left q r (drafted out.old) (drafted out.new)) (Stops s (λ j k. form (left + j) ∷ k) p)) }
{
    if cursor.comes(b'(') {
        if left == 0 {
            return Err(Misreading::TooDeep(cursor.at));
        }
        cursor.at += 1;
        return group(cursor, left - 1, out);
    }
    let leaf = cursor.plain(left)?;
    Ok(out.put(leaf.into()))
}

// Reads a group, from behind its bracket, whose parts may have groups `left` deep, and answers the
// number of its row.
#[cycle(formula_group)]
fn group(cursor: &mut Cursor, left: usize, out: &mut Draft) -> Result<u8, Misreading>
    ensures { Moves cursor.old cursor.new (λ s p q. MatchResult result (λ r. Stands s (40 ∷ drop p s) (λ j k. inner (left + j) ∷ k) p (suc left) q r (drafted out.old) (drafted out.new)) (Stops s (λ j k. inner (left + j) ∷ k) p)) }
{
    if let Some(u) = cursor.head(left)? {
        let a = formula(cursor, left, out)?;
        cursor.word(b")")?;
        return Ok(out.put(u.row(a)));
    }
    let a = formula(cursor, left, out)?;
    cursor.word(b" ")?;
    let o = cursor.joint()?;
    let b = formula(cursor, left, out)?;
    cursor.word(b")")?;
    Ok(out.put(o.row(a, b)))
}

// Puts the rows of the rule that a text writes onto a draft, and answers the rule.
pub(crate) fn read_rule(text: &[u8], out: &mut Draft) -> Result<Rule, Misreading>
    ensures { MatchResult result (Plants max_depth text.now (drafted out.old) (drafted out.new)) (Refused max_depth text.now) }
{
    let mut cursor = Cursor::new(text);
    let activator = formula(&mut cursor, MAX_DEPTH, out)?;
    cursor.word(b" => ")?;
    let target = formula(&mut cursor, MAX_DEPTH, out)?;
    if cursor.at < text.len() {
        return Err(Misreading::BadText(cursor.at));
    }
    Ok(Rule { activator, target })
}
