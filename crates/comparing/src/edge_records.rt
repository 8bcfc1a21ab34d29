// The longest records.
use crate::expansion::compare_record;
use crate::trial::Trial;
use sampling::records::filled;
use std::io;

// Records of runs that end just within 1,024 instants or just past them.
const RUNS: [&[u8]; 5] = [
    &[5, 255, 5, 255, 5, 255, 5, 255, 5, 4],
    &[5, 255, 5, 255, 5, 255, 5, 255, 5, 5],
    &[5, 255, 5, 255, 5, 255, 5, 255, 5, 3, 9],
    &[5, 255, 5, 255, 5, 255, 5, 255, 5, 4, 9],
    &[5, 255, 5, 255, 5, 255, 5, 255, 5, 4, 9, 0],
];

// Compares the bottoms on records of so many equal bytes.
fn edge_lengths(trial: &mut Trial) -> io::Result<()> {
    for n in [1023, 1024, 1025, 2047, 2048, 2049, 2050] {
        let bytes = filled(trial.heap, n, 5)?;
        compare_record(trial.heap, &bytes, &mut trial.tally)?;
    }
    Ok(())
}

// Compares the bottoms on records of 1,024 instants and one more.
pub(crate) fn edge_records(trial: &mut Trial) -> io::Result<()> {
    edge_lengths(trial)?;
    for bytes in &RUNS {
        compare_record(trial.heap, *bytes, &mut trial.tally)?;
    }
    Ok(())
}
