// A published event log of 100 traces, with its published figures: for two rules the activations and fulfilments of each trace, and
// the average degree over all traces and over the triggered ones, to three decimals. Letters a to i are symbols 0 to 8.
use bottoms::codes::Codes;
use label::verdict::Verdict;
use register::register::Register;
use register::room::Room;
use sheet::row::{Row, Rule};
use sheet::sheet::Sheet;
use std::alloc::{AllocError, Global};
use std::test::Fail;

// A trace of the log: its codes, how often it comes, and for each rule how often it is activated and how often then fulfilled.
#[derive(Clone, Copy)]
struct Published {
    codes: &'static [u8],
    times: u32,
    first: (u64, u64),
    second: (u64, u64),
}

// The third trace, with twenty a.
const MANY: [u8; 22] = [
    0, 3, 0, 0, 0, 0, 0, 0, 0, 0, 0, 0, 0, 0, 0, 0, 0, 0, 0, 0, 0, 2,
];

// A register with the rules a => (true since d) and a => ((yest b) or (true until c)).
fn register(heap: Global) -> Result<Register, AllocError> {
    let mut sheet = Sheet::new(heap)?;
    for row in [
        Row::Symbol(0),
        Row::True,
        Row::Symbol(3),
        Row::Since(1, 2),
        Row::Symbol(1),
        Row::Yest(4),
        Row::Symbol(2),
        Row::Until(1, 6),
        Row::Or(5, 7),
    ] {
        let _ = sheet.add_row(row);
    }
    for target in [3, 8] {
        let activator = 0;
        let _ = sheet.add_rule(Rule { activator, target });
    }
    Ok(Register::new(Room::new(heap)?, sheet, 0))
}

// Takes in a trace so many times.
fn take(register: &mut Register, codes: &[u8], times: u32) {
    take_onto(register, &mut [Verdict::No; 512], codes, times);
}

// Takes in a trace so many times, onto this strip.
fn take_onto(register: &mut Register, strip: &mut [Verdict], codes: &[u8], times: u32) {
    for _ in 0..times {
        let _ = register.take_in(&Codes::new(codes), strip);
    }
}

// A rule's activations and fulfilments.
fn activations(register: &Register, rule: usize) -> Option<(u64, u64)> {
    let Ok(told) = register.read(rule) else {
        return None;
    };
    let f = told.figures;
    Some((f.both.saturating_add(f.act), f.both))
}

// An average degree in thousandths, rounded to the nearest. Each trace's degree is rounded down by less than a millionth, and the
// published figures are not, so the sum is taken at the top of what it may have lost.
fn average(degrees: u64, traces: u64) -> u64 {
    let whole = traces.saturating_mul(1000).max(1);
    degrees.saturating_add(traces).saturating_add(whole / 2) / whole
}

// A rule's average degree over all traces, and over the triggered ones.
fn averages(register: &Register, rule: usize) -> Option<(u64, u64)> {
    let Ok(told) = register.read(rule) else {
        return None;
    };
    let f = told.figures;
    Some((
        average(f.degrees, told.traces),
        average(f.degrees, f.triggered),
    ))
}

#[test]
fn figures(rt: HostRuntime) -> Result<(), Fail> {
    let mut log = register(rt.alloc())?;
    for trace in [
        Published {
            codes: &[3, 5, 0, 5, 2, 0, 5, 1, 0, 5],
            times: 25,
            first: (3, 3),
            second: (3, 2),
        },
        Published {
            codes: &[5, 4, 3, 2, 1, 0, 6, 7, 8],
            times: 15,
            first: (1, 1),
            second: (1, 1),
        },
        Published {
            codes: &MANY,
            times: 10,
            first: (20, 19),
            second: (20, 20),
        },
        Published {
            codes: &[3, 1, 0, 4],
            times: 20,
            first: (1, 1),
            second: (1, 1),
        },
        Published {
            codes: &[0, 3, 0, 2, 0],
            times: 5,
            first: (3, 2),
            second: (3, 2),
        },
        Published {
            codes: &[1, 2, 3, 4],
            times: 20,
            first: (0, 0),
            second: (0, 0),
        },
        Published {
            codes: &[1, 2, 0],
            times: 5,
            first: (1, 0),
            second: (1, 0),
        },
    ] {
        let mut one = register(rt.alloc())?;
        take(&mut one, trace.codes, 1);
        assert!(rt; activations(&one, 0) == Some(trace.first));
        assert!(rt; activations(&one, 1) == Some(trace.second));
        take(&mut log, trace.codes, trace.times);
    }
    assert!(rt; averages(&log, 0) == Some((728, 910)));
    assert!(rt; averages(&log, 1) == Some((650, 813)));
    Ok(())
}
