// Compares labels, standing verdicts and registers with the evaluator, and prints how many comparisons agreed. It reads nothing, its
// arguments neither.
#![tactic(auto)]

use comparing::parts::labels;
use std::io;

fn main(rt: HostRuntime) -> io::Result<()> {
    labels(&rt)
}
