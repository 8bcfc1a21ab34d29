// Tests of the log reader: records of each kind, refusals, and the file's end.
use logfile::reader::LogReader;
use logfile::record::Kind;
use std::test::Fail;

// What a reader answers next: the number of bytes of a record's body, and its place; or a
// refusal's number and place; or none.
fn answer(reader: &mut LogReader) -> Option<(usize, usize)> {
    match reader.next() {
        Ok(Some(record)) => Some((record.body.len(), record.place)),
        Ok(None) => None,
        Err(refusal) => Some((usize::from(refusal.number()), refusal.place)),
    }
}

#[test]
fn records_of_each_kind(rt: HostRuntime) -> Result<(), Fail> {
    let file = b"\x5A\x01\x00\x02ab\x5A\x02\x00\x00\x5A\x03\x00\x03xyz";
    let mut reader = LogReader::new(file);
    for (kind, len, place) in [
        (Kind::Codes, 2, 0),
        (Kind::Snapshots, 0, 6),
        (Kind::Runs, 3, 10),
    ] {
        let Ok(Some(record)) = reader.next() else {
            return Err(Fail::new("no record"));
        };
        assert_eq!(rt; record.kind, kind);
        assert_eq!(rt; record.body.len(), len);
        assert_eq!(rt; record.place, place);
    }
    assert_eq!(rt; answer(&mut reader), None);
    assert_eq!(rt; answer(&mut reader), None, "the end stays the end");
    Ok(())
}

#[test]
fn the_body_is_part_of_the_file(rt: HostRuntime) -> Result<(), Fail> {
    let mut reader = LogReader::new(b"\x5A\x01\x00\x03\x5A\x09\xFF");
    let Ok(Some(record)) = reader.next() else {
        return Err(Fail::new("no record"));
    };
    assert!(rt; record.body == b"\x5A\x09\xFF".as_slice());
    Ok(())
}

#[test]
fn unknown_marks(rt: HostRuntime) {
    for mark in [b"\x5A\x00", b"\x5A\x04", b"\x5B\x01", b"\x01\x5A"] {
        let file = [b'\x5A', 1, 0, 0, mark[0], mark[1], 0, 0];
        let mut reader = LogReader::new(&file);
        assert_eq!(rt; answer(&mut reader), Some((0, 0)));
        assert_eq!(rt; answer(&mut reader), Some((16, 4)));
        assert_eq!(rt; answer(&mut reader), Some((16, 4)), "the reader stays");
    }
}

#[test]
fn every_cut(rt: HostRuntime) {
    let file = b"\x5A\x02\x00\x03abc";
    for n in 1..7 {
        let mut reader = LogReader::new(&file[0..n]);
        assert_eq!(rt; answer(&mut reader), Some((16, 0)));
        assert_eq!(rt; answer(&mut reader), Some((16, 0)));
    }
    let mut whole = LogReader::new(file);
    assert_eq!(rt; answer(&mut whole), Some((3, 0)));
    let mut empty = LogReader::new(&file[0..0]);
    assert_eq!(rt; answer(&mut empty), None);
}

#[test]
fn the_high_byte_is_first(rt: HostRuntime) {
    let mut file = [b'\x5A', 1, 1, 0, 0];
    let mut long = LogReader::new(&file);
    assert_eq!(rt; answer(&mut long), Some((16, 0)), "256 bytes are stated");
    file[2] = 0;
    file[3] = 1;
    let mut short = LogReader::new(&file);
    assert_eq!(rt; answer(&mut short), Some((1, 0)));
}
