// The edges of the three layers, over one record.
use crate::told::{Told, first_is, own_fault, tells};
use bottoms::codes::Codes;
use layers::refusal::Refusal;
use layers::renamed::Renamed;
use layers::renaming::Renaming;
use layers::reversed::Reversed;
use layers::segment::Segment;
use trace::reading::raised;

// A record of five codes, the fourth of which names no symbol.
const RECORD: [u8; 5] = [10, 11, 12, 77, 14];

#[test]
fn reversed(rt: HostRuntime) {
    let once = Reversed {
        below: Codes::new(&RECORD),
    };
    for (instant, told) in [
        (1, Told::Symbols(1 << 14)),
        (2, Told::Fault(1, 3, 1)),
        (5, Told::Symbols(1 << 10)),
        (6, Told::Fault(5, 6, 0)),
    ] {
        assert!(rt; tells(&once, 5, instant, told));
    }
    assert!(rt; first_is(&Reversed { below: once }, 4, Told::Fault(1, 3, 2)));
}

// In the table: first and last instant, how many instants the segment has, an instant, and what it tells.
#[test]
fn segments(rt: HostRuntime) {
    for (first, last, len, instant, told) in [
        (1, 5, 5, 5, Told::Symbols(1 << 14)),
        (2, 4, 3, 1, Told::Symbols(1 << 11)),
        (2, 4, 3, 3, Told::Fault(1, 3, 1)),
        (2, 4, 3, 4, Told::Fault(5, 4, 0)),
        (5, 5, 1, 1, Told::Symbols(1 << 14)),
        (0, 3, 1, 1, Told::Fault(4, 0, 0)),
        (3, 2, 1, 1, Told::Fault(4, 3, 0)),
        (1, 6, 1, 1, Told::Fault(4, 1, 0)),
        (6, 6, 1, 1, Told::Fault(4, 6, 0)),
    ] {
        let below = Codes::new(&RECORD);
        assert!(rt; tells(&Segment { below, first, last }, len, instant, told));
    }
}

#[test]
fn layers_count_to_255(rt: HostRuntime) {
    for (below, above) in [(0, 1), (254, 255), (255, 255)] {
        assert_eq!(rt; raised(own_fault(below)), own_fault(above));
    }
}

#[test]
fn renamings(rt: HostRuntime) {
    let mut table = Renaming::new();
    for (from, to, accepted) in [
        (10, 11, true),
        (12, 64, true),
        (63, 0, true),
        (64, 0, false),
        (14, 65, false),
        (255, 255, false),
    ] {
        assert!(rt; table.send(from, to).is_ok() == accepted);
    }
    assert!(rt;
        Refusal::BadRenaming.number() == 17 && Refusal::BadRenaming.word() == "bad renaming"
    );
    let renamed = Renamed {
        below: Codes::new(&RECORD),
        renaming: table,
    };
    for (instant, told) in [
        (1, Told::Symbols(1 << 11)),
        (2, Told::Symbols(1 << 11)),
        (3, Told::Symbols(0)),
        (4, Told::Fault(1, 3, 1)),
        (5, Told::Symbols(1 << 14)),
    ] {
        assert!(rt; tells(&renamed, 5, instant, told));
    }
}
