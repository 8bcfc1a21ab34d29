// A line of text that is written from left to right.
ghost use Rattle.std.specs.Prelude.{◌≤◌};
ghost use Rattle.arrayvec.specs.ArrayString.{array_string_len};
ghost use Rattle.lines.specs.Limits.{room};

use arrayvec::ArrayString;

pub mod writing;

// The room of a line. The longest line of the report has fewer bytes.
const ROOM: usize = 192;

// What is written so far.
#[derive(Clone, Copy)]
pub struct Line {
    text: ArrayString<ROOM>,
    ghost within: { array_string_len text ≤ room },
}
