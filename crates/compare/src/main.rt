// Makes all comparisons with the evaluator and with plain lists, and prints how many agreed. It reads nothing, its arguments
// neither.
#![tactic(auto)]

use comparing::parts::everything;
use std::io;

fn main(rt: HostRuntime) -> io::Result<()> {
    everything(&rt)
}
