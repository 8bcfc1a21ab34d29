// The whole report, into the room that the caller lends.
ghost use Rattle.exports.specs.Reporting.{Given};

use report::desk::Desk;
use std::alloc::Global;

// Writes the report on a log by a rules file, and answers how many bytes it has. Where the room has fewer, nothing is written.
// Without memory for it the answer is 0.
#[unsafe(no_mangle)]
pub extern "C" fn kurzhelim_report(heap: Global, rules: &[u8], log: &[u8], out: &mut [u8]) -> usize
    ensures { Given rules.now log.now out.old out.new result }
{
    let Ok(desk) = Desk::new(heap) else {
        return 0;
    };
    let text = desk.report(rules, log);
    let n = text.len();
    if n <= out.len() {
        out[..n].copy_from_slice(text.as_slice());
    }
    n
}
