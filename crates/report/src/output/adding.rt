// What is added to the output: the line of a refused record, the totals, and a line for each rule.
ghost use Rattle.std.specs.Prelude.{◌≡◌, ◌+◌, ◌*◌, ◌≤◌, ◌++◌, length, vec_len};
ghost use Rattle.lines.specs.Limits.{room};
ghost use Rattle.lines.specs.Lines.{totals};
ghost use Rattle.register.specs.History.{figures_of};
ghost use Rattle.report.specs.Counts.{sheet_of};
ghost use Rattle.report.specs.Limits.{record_line, max_output, max_records};
ghost use Rattle.report.specs.Output.{ended, rule_lines, shown};

use crate::output::Output;
use crate::records::Count;
use lines::wording::{Entry, log_line, refused_line, rule_line, totals_line};
use register::refusal::Refusal;
use register::register::Register;

impl Output {
    // Adds the line of the record of this number, if it is refused.
    pub(crate) fn add_refusal(&mut self, number: u64, answer: Result<usize, Refusal>)
        requires few { number ≤ max_records }
        requires room { vec_len self.old.bytes + record_line ≤ max_output }
        ensures items { self.new.bytes.items ≡ self.old.bytes.items ++ shown number answer }
        ensures len { vec_len self.new.bytes ≤ vec_len self.old.bytes + record_line }
    {
        if let Err(why) = answer {
            self.add_line(&refused_line(Entry::Record, number, why.number()));
        }
    }

    // Adds the place where reading stopped early, if it did, and then the totals.
    pub(crate) fn add_totals(&mut self, stop: Option<usize>, count: Count)
        requires { vec_len self.old.bytes + (room + room) ≤ max_output }
        ensures items { self.new.bytes.items ≡ ended self.old.bytes.items stop (totals count.traces count.instants) }
        ensures len { vec_len self.new.bytes ≤ vec_len self.old.bytes + (room + room) }
    {
        if let Some(place) = stop {
            self.add_line(&log_line(place as u64));
        }
        self.add_line(&totals_line(count.traces, count.instants));
    }

    // Adds a line for each rule of the register's sheet, in their order. `rules` is how many there are.
    pub(crate) fn add_rules(&mut self, register: &Register, rules: usize)
        requires all { rules ≡ length (sheet_of register.now).rules }
        requires room { vec_len self.old.bytes + room * rules ≤ max_output }
        ensures { self.new.bytes.items ≡ self.old.bytes.items ++ rule_lines 0 rules (figures_of register.now) }
    {
        for k in 0..rules {
            if let Ok(told) = register.read(k) {
                self.add_line(&rule_line(k as u64, &told.figures));
            }
        }
    }
}
