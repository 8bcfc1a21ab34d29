// The writing of a line, and its bytes.
ghost use Rattle.std.specs.Prelude.{◌≡◌, ◌+◌, ◌≤◌, [], ◌++◌, length};
ghost use Rattle.lines.specs.Limits.{room, most_digits};
ghost use Rattle.lines.specs.Lines.{written, numbered};

use crate::line::Line;
use arrayvec::ArrayString;
use itoa::Buffer;

impl Line {
    // A line with nothing on it yet.
    pub(crate) fn new() -> Line
        ensures { written result ≡ [] }
    {
        Line {
            text: ArrayString::new(),
        }
    }

    // The bytes written.
    pub fn as_bytes(&self) -> &[u8]
        ensures { result.now ≡ written self.now }
    {
        self.text.as_str().as_bytes()
    }

    // Adds a text.
    pub(crate) fn text(&mut self, text: &str)
        requires { length (written self.old) + length text.now ≤ room }
        ensures { written self.new ≡ written self.old ++ text.now }
    {
        self.text.push_str(text);
    }

    // Adds a text, and then a number in decimal digits.
    pub(crate) fn number(&mut self, text: &str, n: u64)
        requires { length (written self.old) + length text.now + most_digits ≤ room }
        ensures value { written self.new ≡ written self.old ++ numbered text.now n }
        ensures len { length (written self.new) ≤ length (written self.old) + length text.now + most_digits }
    {
        self.text(text);
        self.text(Buffer::new().format(n));
    }
}
