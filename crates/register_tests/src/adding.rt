// Tests of take in and read.
use crate::common::{register, told};
use bottoms::codes::Codes;
use label::verdict::Verdict;
use register::refusal::Refusal::Unreadable;
use register::register::Register;
use std::test::Fail;

// The trace a c a d a: five instants, so twenty cells under four rows.
const CODES: [u8; 5] = [0, 2, 0, 3, 0];

// As many cells as instants times rows are enough, one fewer are not; the figures are those of the worked example.
#[test]
fn cells(rt: HostRuntime) -> Result<(), Fail> {
    let mut register = register(rt.alloc(), 7)?;
    let mut strip = [Verdict::No; 20];
    let mut short = [Verdict::No; 19];
    let trace = Codes::new(&CODES);
    assert_eq!(rt; told(register.take_in(&trace, &mut short)), 3);
    assert_eq!(rt; told(register.take_in(&trace, &mut strip)), 0);
    assert_eq!(rt; told(register.read(1)), 10);
    let Ok(all) = register.read(0) else {
        return Err(Fail::new("no rule"));
    };
    assert_eq!(rt; all.figures.both, 2);
    assert_eq!(rt; all.figures.act, 1);
    assert_eq!(rt; all.figures.tgt, 2);
    assert_eq!(rt; all.figures.none, 0);
    assert_eq!(rt; all.figures.triggered, 1);
    assert_eq!(rt; all.figures.degrees, 666666);
    assert_eq!(rt; all.traces, 1);
    assert_eq!(rt; all.instants, 5);
    assert!(rt; all.support == Some((2, 5)));
    assert!(rt; all.confidence == Some((2, 3)));
    Ok(())
}

// Before the first trace, support and confidence are absent; where no activator held, confidence is.
#[test]
fn absent(rt: HostRuntime) -> Result<(), Fail> {
    let mut register = register(rt.alloc(), 7)?;
    let Ok(none) = register.read(0) else {
        return Err(Fail::new("no rule"));
    };
    assert!(rt; none.support.is_none() && none.confidence.is_none());
    let mut strip = [Verdict::No; 4];
    assert_eq!(rt; told(register.take_in(&Codes::new(&[1]), &mut strip)), 0);
    let Ok(one) = register.read(0) else {
        return Err(Fail::new("no rule"));
    };
    assert!(rt; one.support == Some((0, 1)));
    assert!(rt; one.confidence.is_none());
    Ok(())
}

// A blank trace comes before all, an unreadable one before a short strip, and its fault is told whole.
#[test]
fn order(rt: HostRuntime) -> Result<(), Fail> {
    let mut register = register(rt.alloc(), 7)?;
    let mut strip = [Verdict::No; 1];
    assert_eq!(rt; told(register.take_in(&Codes::new(&[]), &mut strip)), 1);
    let Err(why) = register.take_in(&Codes::new(&[1, 64, 65]), &mut strip) else {
        return Err(Fail::new("accepted"));
    };
    let Unreadable(at) = why else {
        return Err(Fail::new("another refusal"));
    };
    assert_eq!(rt; at.instant, 2);
    assert_eq!(rt; at.fault.cause, 1);
    assert_eq!(rt; at.fault.place, 1);
    assert_eq!(rt; at.fault.layers, 0);
    Ok(())
}

// Takes in a trace of one instant so many times, and tells how often it was refused.
fn take_many(register: &mut Register, strip: &mut [Verdict], times: u32) -> u32 {
    let trace = Codes::new(&[0]);
    let mut refused: u32 = 0;
    for _k in 0..times {
        if told(register.take_in(&trace, strip)) != 0 {
            refused = refused.saturating_add(1);
        }
    }
    refused
}

// The millionth trace is accepted and the next is refused, before its short strip is.
#[test]
fn full(rt: HostRuntime) -> Result<(), Fail> {
    let mut register = register(rt.alloc(), 7)?;
    let mut strip = [Verdict::No; 4];
    assert_eq!(rt; take_many(&mut register, &mut strip, 1_000_000), 0);
    assert_eq!(rt; take_many(&mut register, &mut strip, 1), 1);
    let trace = Codes::new(&[0]);
    assert_eq!(rt; told(register.take_in(&trace, &mut [Verdict::No; 1])), 4);
    let Ok(all) = register.read(0) else {
        return Err(Fail::new("no rule"));
    };
    assert_eq!(rt; all.traces, 1_000_000);
    assert_eq!(rt; all.figures.act, 1_000_000);
    Ok(())
}
