// The edges of the three bottoms. In each table: how many bytes of the record, how many instants they are, an instant, and
// what it tells.
use crate::told::{Told, first_is, tells};
use bottoms::codes::Codes;
use bottoms::runs::Runs;
use bottoms::snapshots::Snapshots;
use trace::source::Source;

// The first bytes of a record, or all where there are fewer.
fn first(record: &[u8], count: usize) -> &[u8] {
    if count < record.len() {
        &record[0..count]
    } else {
        record
    }
}

#[test]
fn codes(rt: HostRuntime) {
    let record = [7; 1026];
    for (count, len, instant, told) in [
        (0, 0, 1, Told::Fault(5, 1, 0)),
        (1024, 1024, 1024, Told::Symbols(1 << 7)),
        (1024, 1024, 1025, Told::Fault(5, 1025, 0)),
        (1025, 1, 1, Told::Fault(3, 1024, 0)),
        (1026, 1, 1, Told::Fault(3, 1024, 0)),
    ] {
        assert!(rt; tells(&Codes::new(first(&record, count)), len, instant, told));
    }
    let edge = Codes::new(&[63, 0, 64, 255]);
    assert!(rt; tells(&edge, 4, 1, Told::Symbols(1 << 63)));
    assert!(rt; tells(&edge, 4, 4, Told::Fault(1, 3, 0)));
    assert!(rt; first_is(&edge, 3, Told::Fault(1, 2, 0)));
}

#[test]
fn snapshots(rt: HostRuntime) {
    let record = [128; 2050];
    for (count, len, instant, told) in [
        (0, 0, 1, Told::Fault(5, 1, 0)),
        (1, 1, 1, Told::Fault(2, 0, 0)),
        (2047, 1024, 1024, Told::Fault(2, 2046, 0)),
        (2048, 1024, 1024, Told::Symbols(1 << 15 | 1 << 7)),
        (2049, 1, 1, Told::Fault(3, 2048, 0)),
        (2050, 1, 1, Told::Fault(3, 2048, 0)),
    ] {
        assert!(rt; tells(&Snapshots::new(first(&record, count)), len, instant, told));
    }
    let order = Snapshots::new(&[128, 1, 0, 0, 9]);
    assert!(rt; tells(&order, 3, 1, Told::Symbols(1 << 15 | 1)));
    assert!(rt; tells(&order, 3, 2, Told::Symbols(0)));
    assert!(rt; first_is(&order, 3, Told::Fault(2, 4, 0)));
}

#[test]
fn runs(rt: HostRuntime) {
    let record = [1, 255, 1, 255, 1, 255, 1, 255, 2, 4, 5, 0, 3, 1, 9];
    for (count, len, instant, told) in [
        (0, 0, 1, Told::Fault(5, 1, 0)),
        (1, 1, 1, Told::Fault(2, 0, 0)),
        (9, 1021, 1021, Told::Fault(2, 8, 0)),
        (10, 1024, 1020, Told::Symbols(1 << 1)),
        (10, 1024, 1024, Told::Symbols(1 << 2)),
        (11, 1, 1, Told::Fault(3, 10, 0)),
        (12, 1024, 1024, Told::Symbols(1 << 2)),
        (13, 1, 1, Told::Fault(3, 12, 0)),
        (14, 1, 1, Told::Fault(3, 12, 0)),
        (15, 1, 1, Told::Fault(3, 12, 0)),
    ] {
        assert!(rt; tells(&Runs::new(first(&record, count)), len, instant, told));
    }
    let pairs = Runs::new(&[63, 1, 4, 0, 64, 2, 8]);
    assert!(rt; tells(&pairs, 4, 1, Told::Symbols(1 << 63)));
    assert!(rt; tells(&pairs, 4, 4, Told::Fault(2, 6, 0)));
    assert!(rt; first_is(&pairs, 2, Told::Fault(1, 4, 0)));
}
