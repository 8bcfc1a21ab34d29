// The two sweeps over a trace: forward for the rows that look back at most, then backward for the others.
ghost use Rattle.std.specs.Prelude.{◌≡◌, ◌+◌, ◌-◌, ◌*◌, ◌≤◌, length, drop, vec_len};
ghost use Rattle.label.specs.Steps.{back_only, any_row, Filled};

use crate::cells::{PlacedRow, before, label_row, later};
use crate::kind::VerdictKind;
use crate::verdict::Verdict;
use sheet::sheet::Sheet;
use trace::source::Source;

// A trace that is to be labelled against a sheet: the sheet, the source and the number of its instants.
#[derive(Drop)]
pub(crate) struct Labelling<'a, S: Source> {
    pub(crate) sheet: &'a Sheet,
    pub(crate) source: &'a S,
    pub(crate) n: usize,
    ghost count: { n ≡ length (S.readings source.now) },
    ghost few: { n ≤ 1024 },
}

impl<'a, S: Source> Labelling<'a, S> {
    // Labels the rows that look back at most, at every instant from the first to the last.
    pub(crate) fn forward<K: VerdictKind>(&self, strip: &mut [Verdict])
        requires room { self.now.n * vec_len self.now.sheet.now.rows ≤ length strip.old }
        ensures cells { Filled (back_only self.now.sheet.now.rows.items) K.after (S.readings self.now.source.now) self.now.sheet.now.rows.items 1 self.now.n strip.new }
        ensures rest { drop (self.now.n * vec_len self.now.sheet.now.rows) strip.new ≡ drop (self.now.n * vec_len self.now.sheet.now.rows) strip.old }
    {
        for i in 1..=self.n {
            self.forward_instant::<K>(i, strip);
        }
    }

    // Labels the rows that look back at most at instant `i`, those at the instants before it being labelled.
    fn forward_instant<K: VerdictKind>(&self, i: usize, strip: &mut [Verdict])
        requires low { 1 ≤ i }
        requires within { i ≤ self.now.n }
        requires room { i * vec_len self.now.sheet.now.rows ≤ length strip.old }
        requires before { Filled (back_only self.now.sheet.now.rows.items) K.after (S.readings self.now.source.now) self.now.sheet.now.rows.items 1 (i - 1) strip.old }
        ensures cells { Filled (back_only self.now.sheet.now.rows.items) K.after (S.readings self.now.source.now) self.now.sheet.now.rows.items 1 i strip.new }
        ensures rest { drop (i * vec_len self.now.sheet.now.rows) strip.new ≡ drop (i * vec_len self.now.sheet.now.rows) strip.old }
    {
        let reading = self.source.reading(i);
        let rows = self.sheet.rows();
        let classes = self.sheet.classes();
        let m = rows.len();
        let start = (i - 1) * m;
        for (r, row) in rows.iter().enumerate() {
            if classes[r].present_or_past() {
                let placed = PlacedRow {
                    number: r,
                    row: *row,
                };
                let near = before(strip, i, m, placed);
                label_row(&mut strip[start..start + m], placed, &reading, near);
            }
        }
    }

    // Labels the rows that look ahead, at every instant from the last to the first.
    pub(crate) fn backward<K: VerdictKind>(&self, strip: &mut [Verdict])
        requires room { self.now.n * vec_len self.now.sheet.now.rows ≤ length strip.old }
        requires back { Filled (back_only self.now.sheet.now.rows.items) K.after (S.readings self.now.source.now) self.now.sheet.now.rows.items 1 self.now.n strip.old }
        ensures cells { Filled any_row K.after (S.readings self.now.source.now) self.now.sheet.now.rows.items 1 self.now.n strip.new }
        ensures rest { drop (self.now.n * vec_len self.now.sheet.now.rows) strip.new ≡ drop (self.now.n * vec_len self.now.sheet.now.rows) strip.old }
    {
        for i in (1..=self.n).rev() {
            self.backward_instant::<K>(i, strip);
        }
    }

    // Labels the rows that look ahead at instant `i` of `n`, all rows at the instants after it being labelled.
    fn backward_instant<K: VerdictKind>(&self, i: usize, strip: &mut [Verdict])
        requires low { 1 ≤ i }
        requires within { i ≤ self.now.n }
        requires room { self.now.n * vec_len self.now.sheet.now.rows ≤ length strip.old }
        requires back { Filled (back_only self.now.sheet.now.rows.items) K.after (S.readings self.now.source.now) self.now.sheet.now.rows.items 1 self.now.n strip.old }
        requires later { Filled any_row K.after (S.readings self.now.source.now) self.now.sheet.now.rows.items (i + 1) self.now.n strip.old }
        ensures back { Filled (back_only self.now.sheet.now.rows.items) K.after (S.readings self.now.source.now) self.now.sheet.now.rows.items 1 self.now.n strip.new }
        ensures cells { Filled any_row K.after (S.readings self.now.source.now) self.now.sheet.now.rows.items i self.now.n strip.new }
        ensures rest { drop (self.now.n * vec_len self.now.sheet.now.rows) strip.new ≡ drop (self.now.n * vec_len self.now.sheet.now.rows) strip.old }
    {
        let reading = self.source.reading(i);
        let beyond = K::beyond();
        let rows = self.sheet.rows();
        let classes = self.sheet.classes();
        let m = rows.len();
        let start = (i - 1) * m;
        for (r, row) in rows.iter().enumerate() {
            if !classes[r].present_or_past() {
                let placed = PlacedRow {
                    number: r,
                    row: *row,
                };
                let near = later(strip, beyond, self.n, i, m, placed);
                label_row(&mut strip[start..start + m], placed, &reading, near);
            }
        }
    }
}
