// Reports on the log on standard input, by the rules of the file rules.txt in the folder it is run in. All that it prints is what
// one call of the library answers.
#![tactic(auto)]

use report::desk::Desk;
use report::desk::reporting::{MAX_LOG, MAX_RULES_TEXT};
use std::fs::File;
use std::io;
use std::io::{ErrorKind, Read, Write};

// What a reader has, up to one byte more than `limit`, which shows that it has too much.
fn read_some<R: Read + Drop>(rt: &HostRuntime, from: R, limit: usize) -> io::Result<Vec<u8>> {
    let mut bytes = Vec::new(rt.alloc());
    let most = u64::try_from(limit).unwrap_or(u64::MAX).saturating_add(1);
    from.take(most).read_to_end(&mut bytes)?;
    Ok(bytes)
}

// The bytes of rules.txt, and none where there is no such file.
fn read_rules(rt: &HostRuntime) -> io::Result<Vec<u8>> {
    match File::open(rt, "rules.txt") {
        Ok(file) => read_some(rt, file, MAX_RULES_TEXT),
        Err(e) if e.kind() == ErrorKind::NotFound => Ok(Vec::new(rt.alloc())),
        Err(e) => Err(e),
    }
}

// Reads both inputs, and prints the report.
fn run(rt: &HostRuntime) -> io::Result<()> {
    let rules = read_rules(rt)?;
    let log = read_some(rt, rt.stdin(), MAX_LOG)?;
    let desk = Desk::new(rt.alloc())?;
    let text = desk.report(rules.as_slice(), log.as_slice());
    rt.stdout().write_all(text.as_slice())
}

fn main(rt: HostRuntime) -> io::Result<()> {
    run(&rt)
}
