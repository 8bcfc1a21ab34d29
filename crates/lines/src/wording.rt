// The wording of each line.
ghost use Rattle.std.specs.Prelude.{◌≡◌};
ghost use Rattle.lines.specs.Lines.{written, totals, named, refused, refused_log, too_long, rule};

use crate::line::Line;
use register::figures::Figures;

// What is refused with a number among its kind: a record of the log, or a line of the rules file.
#[derive(Clone, Copy)]
pub enum Entry {
    Record,
    RuleLine,
}

impl Entry {
    // The words before its number.
    fn name(self) -> &'static str
        ensures { result.now ≡ named self }
    {
        match self {
            Entry::Record => "record ",
            Entry::RuleLine => "line ",
        }
    }
}

// The line of the totals: how many traces were added, and how many instants they have.
pub fn totals_line(traces: u64, instants: u64) -> Line
    ensures { written result ≡ totals traces instants }
{
    let mut line = Line::new();
    line.number("traces ", traces);
    line.number(" instants ", instants);
    line.text("\n");
    line
}

// The line of a refused record or rule, by its number among the records or lines, and the refusal's number.
pub fn refused_line(entry: Entry, number: u64, refusal: u8) -> Line
    ensures { written result ≡ refused entry number refusal }
{
    let mut line = Line::new();
    line.number(entry.name(), number);
    line.number(" refused ", u64::from(refusal));
    line.text("\n");
    line
}

// The line of a log whose reading stops early, at the record that begins at this place.
pub fn log_line(place: u64) -> Line
    ensures { written result ≡ refused_log place }
{
    let mut line = Line::new();
    line.number("log refused 16 at ", place);
    line.text("\n");
    line
}

// The line of input that is too long.
pub fn too_long_line() -> Line
    ensures { written result ≡ too_long }
{
    let mut line = Line::new();
    line.text("too long\n");
    line
}

// The line of a rule, by its number and its figures.
pub fn rule_line(number: u64, figures: &Figures) -> Line
    ensures { written result ≡ rule number figures.now }
{
    let mut line = Line::new();
    line.number("rule ", number);
    line.number(" both ", figures.both);
    line.number(" act ", figures.act);
    line.number(" tgt ", figures.tgt);
    line.number(" none ", figures.none);
    line.number(" trig ", figures.triggered);
    line.number(" deg ", figures.degrees);
    line.text("\n");
    line
}
