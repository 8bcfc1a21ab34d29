// Compares the sources with plain lists, the adding of rows with a judgement of their formulas, and the rule-text reader with the
// rules that it should read, and prints how many comparisons agreed. It reads nothing, its arguments neither.
#![tactic(auto)]

use comparing::parts::sources;
use std::io;

fn main(rt: HostRuntime) -> io::Result<()> {
    sources(&rt)
}
