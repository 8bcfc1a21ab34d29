// The log: each record is taken in, and each refusal gets its line.
ghost use Rattle.std.specs.Prelude.{◌≡◌, ◌≤◌, [], length};
ghost use Rattle.register.specs.History.{Begun};
ghost use Rattle.report.specs.Limits.{max_log, strip_cells};
ghost use Rattle.report.specs.Counts.{sheet_of, Logged};

use crate::output::Output;
use crate::records::{Count, take_record};
use label::verdict::Verdict;
use logfile::reader::LogReader;
use register::register::Register;

// Takes in the records of a log, and writes the line of each that is refused. It answers their count, and the place where reading
// stops, if it stops early.
pub(crate) fn read_log(
    register: &mut Register,
    strip: &mut [Verdict],
    log: &[u8],
    out: &mut Output,
) -> (Count, Option<usize>)
    requires begun { Begun (sheet_of register.old) 0 register.old }
    requires cells { length strip.old ≡ strip_cells }
    requires short { length log.now ≤ max_log }
    requires blank { out.old.bytes.items ≡ [] }
    ensures { Logged (sheet_of register.old) log.now register.new result.0 result.1 out.new.bytes.items }
{
    let mut reader = LogReader::new(log);
    let mut count = Count::default();
    let stop = loop {
        match reader.next() {
            Ok(None) => break None,
            Err(bad) => break Some(bad.place),
            Ok(Some(record)) => {
                let answer = take_record(register, record.kind, record.body, strip);
                count = count.with(answer);
                out.add_refusal(count.records, answer);
            }
        }
    };
    (count, stop)
}
