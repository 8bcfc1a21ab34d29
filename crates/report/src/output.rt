// The output: lines are added to room that was claimed before, so that adding one cannot fail.
ghost use Rattle.std.specs.Prelude.{◌≡◌, ◌+◌, ◌≤◌, [], ◌++◌, length, IfOk, vec_len, vec_capacity};
ghost use Rattle.lines.specs.Limits.{room};
ghost use Rattle.lines.specs.Lines.{written};
ghost use Rattle.report.specs.Limits.{record_line, max_output};

use lines::line::Line;
use std::alloc::{AllocError, Global};

pub(crate) mod adding;

// How many bytes a report has at most.
const MAX_OUTPUT: usize = 411_520;

// What is written of a report, with room for the longest one.
#[derive(Drop)]
pub(crate) struct Output {
    bytes: Vec<u8>,
    ghost enough: { max_output ≤ vec_capacity bytes },
}

impl Output {
    // Claims the room, and writes nothing yet.
    pub(crate) fn new(heap: Global) -> Result<Output, AllocError>
        ensures { IfOk result (λ o. o.bytes.items ≡ []) }
    {
        let bytes = Vec::with_capacity(heap, MAX_OUTPUT)?;
        Ok(Output { bytes })
    }

    // The bytes written.
    pub(crate) fn into_bytes(self) -> Vec<u8>
        ensures { result.items ≡ self.bytes.items }
    {
        let Output { bytes } = self;
        bytes
    }

    // Adds a line.
    pub(crate) fn add_line(&mut self, line: &Line)
        requires { vec_len self.old.bytes + length (written line.now) ≤ max_output }
        ensures items { self.new.bytes.items ≡ self.old.bytes.items ++ written line.now }
        ensures len { vec_len self.new.bytes ≡ vec_len self.old.bytes + length (written line.now) }
        ensures short { length (written line.now) ≤ room }
    {
        let _ = self.bytes.extend_from_slice(line.as_bytes());
    }
}
