// A place in a text, and the bytes and words that stand there.
ghost use Rattle.std.specs.Prelude.{◌≡◌, ◌≤◌, [], length, MatchBool, MatchOption, MatchResult};
ghost use Rattle.text.specs.Machine.{Comes, Holds, Misses, Off};

use crate::refusal::Misreading;

// A text, and a place in it or at its end, up to which it was read.
#[derive(Drop)]
pub(crate) struct Cursor<'a> {
    pub(crate) text: &'a [u8],
    pub(crate) at: usize,
    ghost within: { at ≤ length text.now },
}

impl<'a> Cursor<'a> {
    ghost use Rattle.text.specs.Cursors.{rest, Moves};

    // The beginning of a text.
    pub(crate) fn new(text: &'a [u8]) -> Cursor<'a>
        ensures text { result.text.now ≡ text.now }
        ensures at { result.at ≡ 0 }
    {
        Cursor { text, at: 0 }
    }

    // The byte that comes next, if the text does not end here.
    pub(crate) fn peek(&self) -> Option<u8>
        ensures { MatchOption result (rest self.now ≡ []) (Comes self.now.text.now self.now.at) }
    {
        self.text.get(self.at).copied()
    }

    // Whether this byte comes next.
    pub(crate) fn comes(&self, b: u8) -> bool
        ensures { MatchBool result (Comes self.now.text.now self.now.at b) (Off b (rest self.now)) }
    {
        self.peek() == Some(b)
    }

    // Reads a word, or refuses the first byte that differs from it.
    pub(crate) fn word(&mut self, word: &[u8]) -> Result<(), Misreading>
        ensures { Moves self.old self.new (λ s p q. MatchResult result (λ _. Holds s p word.now q) (Misses s p word.now)) }
    {
        for b in word {
            if !self.comes(*b) {
                return Err(Misreading::BadText(self.at));
            }
            self.at += 1;
        }
        Ok(())
    }
}
