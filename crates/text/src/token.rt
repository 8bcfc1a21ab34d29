// The tokens of a rule text: formulas that are no group, and the words of groups.
ghost use Rattle.std.specs.Prelude.{◌≡◌, ◌+◌, ◌<◌, [], ◌∷◌, ◌++◌, drop, MatchOption, MatchResult};
ghost use Rattle.text.specs.Cursors.{rest, Moves};
ghost use Rattle.text.specs.Trees.{binary_text, unary_text};
ghost use Rattle.text.specs.Machine.{form, inner, after_n, single, joint as jointed, after_s, digit, Off, Stops, Found, Spells, Headed};

use crate::cursor::Cursor;
use crate::refusal::Misreading;
use crate::term::{Binary, Leaf, Unary};

impl Cursor<'_> {
    // The symbol whose first digit is `d`, which is not 0; a second may follow.
    fn number(&mut self, d: u8) -> Leaf
        requires { (0 < d) × (d < 10) }
        ensures { Moves self.old self.new (λ s p q. Found s (115 ∷ (48 + d) ∷ drop p s) (λ j k. digit ∷ k) p result q) }
    {
        match self.peek() {
            Some(e) if e.is_ascii_digit() => {
                self.at += 1;
                Leaf::Symbol(d * 10 + (e - b'0'))
            }
            _ => Leaf::Symbol(d),
        }
    }

    // What begins with `s`, from behind it: `start` or a symbol.
    fn name(&mut self) -> Result<Leaf, Misreading>
        ensures { Moves self.old self.new (λ s p q. MatchResult result (λ l. Found s (115 ∷ drop p s) (λ j k. after_s ∷ k) p l q) (Stops s (λ j k. after_s ∷ k) p)) }
    {
        match self.peek() {
            Some(b't') => self.word(b"tart").and(Ok(Leaf::Start)),
            Some(b'0') => {
                self.at += 1;
                Ok(Leaf::Symbol(0))
            }
            Some(b) if b.is_ascii_digit() => {
                self.at += 1;
                Ok(self.number(b - b'0'))
            }
            _ => Err(Misreading::BadText(self.at)),
        }
    }

    // A formula that is no group, where none opens.
    pub(crate) fn plain(&mut self, left: usize) -> Result<Leaf, Misreading>
        requires { Off 40 (rest self.old) }
        ensures { Moves self.old self.new (λ s p q. MatchResult result (λ l. Found s (drop p s) (λ j k. form (left + j) ∷ k) p l q) (Stops s (λ j k. form (left + j) ∷ k) p)) }
    {
        match self.peek() {
            Some(b't') => self.word(b"true").and(Ok(Leaf::True)),
            Some(b'f') => self.word(b"false").and(Ok(Leaf::False)),
            Some(b'e') => self.word(b"end").and(Ok(Leaf::End)),
            Some(b's') => {
                self.at += 1;
                self.name()
            }
            _ => Err(Misreading::BadText(self.at)),
        }
    }

    // `and`, `or`, `until` or `since`, and a space.
    pub(crate) fn joint(&mut self) -> Result<Binary, Misreading>
        ensures { Moves self.old self.new (λ s p q. MatchResult result (λ o. Spells s (drop p s) (binary_text o ++ 32 ∷ []) (λ j k. jointed ∷ k) (λ j k. k) p q) (Stops s (λ j k. jointed ∷ k) p)) }
    {
        match self.peek() {
            Some(b'a') => self.word(b"and ").and(Ok(Binary::And)),
            Some(b'o') => self.word(b"or ").and(Ok(Binary::Or)),
            Some(b'u') => self.word(b"until ").and(Ok(Binary::Until)),
            Some(b's') => self.word(b"since ").and(Ok(Binary::Since)),
            _ => Err(Misreading::BadText(self.at)),
        }
    }

    // `not` or `next`, after the `n`, and a space.
    fn after_n(&mut self, left: usize) -> Result<Unary, Misreading>
        ensures { Moves self.old self.new (λ s p q. MatchResult result (λ u. Spells s (110 ∷ drop p s) (unary_text u ++ 32 ∷ []) (λ j k. after_n (left + j) ∷ k) (λ j k. single (left + j) k) p q) (Stops s (λ j k. after_n (left + j) ∷ k) p)) }
    {
        match self.peek() {
            Some(b'o') => self.word(b"ot ").and(Ok(Unary::Not)),
            Some(b'e') => self.word(b"ext ").and(Ok(Unary::Next)),
            _ => Err(Misreading::BadText(self.at)),
        }
    }

    // The word of a group of one operand, if it has one.
    pub(crate) fn head(&mut self, left: usize) -> Result<Option<Unary>, Misreading>
        ensures { Moves self.old self.new (λ s p q. MatchResult result (λ o. MatchOption o ((q ≡ p) × Headed s left p None) (λ u. Headed s left p (Some (u, q)))) (Stops s (λ j k. inner (left + j) ∷ k) p)) }
    {
        match self.peek() {
            Some(b'n') => {
                self.at += 1;
                let u = self.after_n(left)?;
                Ok(Some(u))
            }
            Some(b'y') => self.word(b"yest ").and(Ok(Some(Unary::Yest))),
            _ => Ok(None),
        }
    }
}
