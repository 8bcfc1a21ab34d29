// A segment is a trace of its own: start and end are its own first and last instants, not those of the record.
use crate::labels::check_cells;
use bottoms::codes::Codes;
use label::labelling::settle;
use label::verdict::Verdict;
use layers::segment::Segment;
use sheet::row::Row;
use sheet::sheet::Sheet;
use std::test::Fail;

#[test]
fn start_of_a_segment(rt: HostRuntime) -> Result<(), Fail> {
    let mut sheet = Sheet::new(rt.alloc())?;
    for row in [Row::Start, Row::End] {
        let _ = sheet.add_row(row);
    }
    let codes = Codes::new(&[7, 7, 7, 7, 7]);
    let mut strip = [Verdict::Open; 6];
    assert!(rt;
        settle(&sheet, &codes, &mut strip).is_err(),
        "five instants need ten cells"
    );
    let part = Segment {
        below: codes,
        first: 2,
        last: 4,
    };
    assert!(rt; settle(&sheet, &part, &mut strip).is_ok());
    check_cells(&rt, &strip, b"ynnnny", "a segment")
}
