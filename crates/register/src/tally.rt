// The figures of one trace, counted over the cells of a labelled strip, and their addition rule by rule.
ghost use Rattle.std.specs.Prelude.{◌≡◌, ◌+◌, ◌*◌, ◌<◌, ◌≤◌, true, length, vec_len, slice_index_or};
ghost use Rattle.label.specs.declared.verdict.Verdict.TheVariants.{No};
ghost use Rattle.sheet.specs.Limits.{max_rows};
ghost use Rattle.sheet.specs.Sheets.{ruled};
ghost use Rattle.register.specs.Bounds.{Within, Bounded};
ghost use Rattle.register.specs.Limits.{max_instants, max_traces};
ghost use Rattle.register.specs.Sums as Sums;
ghost use Rattle.register.specs.Sums.{added, cell_figures, ticked, graded, plus};

use crate::figures::Figures;
use label::verdict::Verdict;
use sheet::row::Rule;

// A whole, in millionths.
const MILLIONTHS: u64 = 1_000_000;

// Whether a verdict is yes.
fn yes(verdict: Verdict) -> bool
    ensures { result ≡ Sums.yes verdict }
{
    verdict == Verdict::Yes
}

// One instant more, at which the activator and the target have these truth values.
fn tick(f: Figures, act: bool, tgt: bool) -> Figures
    requires { f.both + f.act + f.tgt + f.none < max_instants }
    ensures { result ≡ ticked f act tgt }
{
    match (act, tgt) {
        (true, true) => Figures {
            both: f.both + 1,
            ..f
        },
        (true, false) => Figures {
            act: f.act + 1,
            ..f
        },
        (false, true) => Figures {
            tgt: f.tgt + 1,
            ..f
        },
        (false, false) => Figures {
            none: f.none + 1,
            ..f
        },
    }
}

// The tallies of a trace, with its trigger and its degree.
fn grade(f: Figures) -> Figures
    requires { f.both + f.act + f.tgt + f.none ≤ max_instants }
    ensures { result ≡ graded f }
{
    let held = f.both + f.act;
    if held > 0 {
        Figures {
            triggered: 1,
            degrees: f.both * MILLIONTHS / held,
            ..f
        }
    } else {
        Figures {
            triggered: 0,
            degrees: 0,
            ..f
        }
    }
}

// The sums of two figures.
fn sum(f: Figures, g: Figures) -> Figures
    requires so_far { Within max_traces (max_instants * max_traces) f }
    requires more { Within 1 max_instants g }
    ensures { result ≡ plus f g }
{
    Figures {
        both: f.both + g.both,
        act: f.act + g.act,
        tgt: f.tgt + g.tgt,
        none: f.none + g.none,
        triggered: f.triggered + g.triggered,
        degrees: f.degrees + g.degrees,
    }
}

// The labels of a trace: a strip that has cells for so many rows at each of its instants.
#[derive(Clone, Copy)]
pub(crate) struct Labels<'a> {
    pub(crate) strip: &'a [Verdict],
    pub(crate) rows: usize,
    pub(crate) instants: usize,
    ghost few: { instants ≤ max_instants },
    ghost narrow: { rows ≤ max_rows },
    ghost room: { instants * rows ≤ length strip.now },
}

impl<'a> Labels<'a> {
    // The label of a row at the instant that has `i` instants before it.
    pub(crate) fn at(&self, i: usize, row: u8) -> Verdict
        requires instant { i < self.now.instants }
        requires row { row < self.now.rows }
        ensures { result ≡ slice_index_or self.now.strip.now (i * self.now.rows + row) No }
    {
        self.strip[i * self.rows + usize::from(row)]
    }

    // A rule's own figures of the trace.
    fn own(&self, rule: Rule) -> Figures
        requires activator { rule.activator < self.now.rows }
        requires target { rule.target < self.now.rows }
        ensures value { result ≡ cell_figures self.now.strip.now self.now.rows self.now.instants rule }
        ensures small { Within 1 max_instants result }
    {
        let mut f = Figures::default();
        for i in 0..self.instants {
            let act = yes(self.at(i, rule.activator));
            let tgt = yes(self.at(i, rule.target));
            f = tick(f, act, tgt);
        }
        grade(f)
    }

    // Adds the trace to the figures of each rule in turn.
    pub(crate) fn add_all(&self, figures: &mut Vec<Figures>, rules: &[Rule])
        requires level { vec_len figures.old ≡ length rules.now }
        requires bounded { Bounded max_traces (max_instants * max_traces) figures.old.items }
        requires there { ruled self.now.rows rules.now ≡ true }
        ensures { figures.new.items ≡ added (cell_figures self.now.strip.now self.now.rows self.now.instants) rules.now figures.old.items }
    {
        for k in 0..rules.len() {
            let more = self.own(rules[k]);
            figures[k] = sum(figures[k], more);
        }
    }
}
