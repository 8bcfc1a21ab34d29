// A record of codes: each byte is an instant at which that one symbol holds.
ghost use Rattle.bottoms.specs.Records.{codes};

use crate::code::code_reading;
use crate::record::{Layout, Record};
use trace::reading::Reading;
use trace::source::MAX_INSTANTS;

// The layout of codes.
#[derive(Clone, Copy)]
pub struct CodeLayout;

// The trace of a record of codes.
pub type Codes<'a> = Record<'a, CodeLayout>;

// The instants of codes: each byte is one.
impl Layout for CodeLayout {
    ghost instants = { codes 0 };

    fn extent(bytes: &[u8]) -> Result<usize, usize> {
        let n = bytes.len();
        if n > MAX_INSTANTS {
            Err(MAX_INSTANTS)
        } else {
            Ok(n)
        }
    }

    fn shown(bytes: &[u8], index: usize) -> Option<Reading> {
        let code = bytes.get(index)?;
        Some(code_reading(*code, index))
    }
}
