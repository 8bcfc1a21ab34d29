// The taking in of records, and their count.
ghost use Rattle.std.specs.Prelude.{◌≡◌, ◌*◌, ◌<◌, ◌≤◌, length};
ghost use Rattle.register.specs.Answers.{of_counted};
ghost use Rattle.register.specs.Calls.{taking_in};
ghost use Rattle.register.specs.History.{Asked};
ghost use Rattle.report.specs.Counts.{Brief, counted_on};
ghost use Rattle.report.specs.Limits.{max_records};
ghost use Rattle.report.specs.Traces.{trace_of};

use bottoms::codes::Codes;
use bottoms::runs::Runs;
use bottoms::snapshots::Snapshots;
use label::verdict::Verdict;
use logfile::record::Kind;
use register::refusal::Refusal;
use register::register::Register;

// How many records were read, how many traces of them were taken in, and how many instants these have.
#[derive(Clone, Copy, Default)]
pub(crate) struct Count {
    pub(crate) records: u64,
    pub(crate) traces: u64,
    pub(crate) instants: u64,
}

impl Count {
    // One more record, which gave this answer.
    pub(crate) fn with(self, answer: Result<usize, Refusal>) -> Count
        requires records { self.records < max_records }
        requires traces { self.traces ≤ self.records }
        requires instants { self.instants ≤ 1024 * self.records }
        requires brief { Brief answer }
        ensures { result ≡ counted_on self answer }
    {
        let records = self.records + 1;
        match answer {
            Ok(n) => Count {
                records,
                traces: self.traces + 1,
                instants: self.instants + n as u64,
            },
            Err(_) => Count {
                records,
                traces: self.traces,
                instants: self.instants,
            },
        }
    }
}

// Takes in the trace of a record: the readings of its body by the bottom of its kind.
pub fn take_record(
    register: &mut Register,
    kind: Kind,
    body: &[u8],
    strip: &mut [Verdict],
) -> Result<usize, Refusal>
    ensures { Asked register.old (taking_in (trace_of kind body.now) (length strip.old)) register.new (of_counted result) }
{
    match kind {
        Kind::Codes => register.take_in(&Codes::new(body), strip),
        Kind::Snapshots => register.take_in(&Snapshots::new(body), strip),
        Kind::Runs => register.take_in(&Runs::new(body), strip),
    }
}
