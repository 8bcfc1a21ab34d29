// Runs the report on each case that the arguments name, from the files NAME.rules and NAME.log.
#![tactic(auto)]

use report::desk::Desk;
use std::io::Write;
use std::{env, fs, io};

// The bytes of a file of a case.
fn part(rt: &HostRuntime, name: &str, ending: &str) -> io::Result<Vec<u8>> {
    let path = format!(in rt.alloc(); "{name}.{ending}")?;
    fs::read(rt, path.as_str())
}

// Prints the name of a case, and then its report.
fn run_case(rt: &HostRuntime, name: &str) -> io::Result<()> {
    let rules = part(rt, name, "rules")?;
    let log = part(rt, name, "log")?;
    let desk = Desk::new(rt.alloc())?;
    let text = desk.report(rules.as_slice(), log.as_slice());
    println!(rt; "case {name}")?;
    rt.stdout().write_all(text.as_slice())
}

fn main(rt: HostRuntime) -> io::Result<()> {
    for name in env::args(&rt)?.skip(1) {
        run_case(&rt, name.as_str())?;
    }
    Ok(())
}
