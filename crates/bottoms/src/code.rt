// What a code byte shows.
ghost use Rattle.std.specs.Prelude.{◌≡◌};
ghost use Rattle.bottoms.specs.Records.{code_reading};

use trace::reading::{Cause, Event, Reading};
use trace::symbols::{SYMBOLS, SymbolSet};

// The one symbol that a code names, or a fault at the place where a code above 63 stands.
pub(crate) fn code_reading(code: u8, place: usize) -> Reading
    ensures { result ≡ code_reading place code }
{
    if code >= SYMBOLS {
        return Err(Cause::BadCode.at(place));
    }
    Ok(Event {
        symbols: SymbolSet::empty().with(code),
    })
}
