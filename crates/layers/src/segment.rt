// Some successive instants of a trace as a trace of their own.
ghost use Rattle.std.specs.Prelude.{◌≡◌};
ghost use Rattle.layers.specs.Bounds.{segment_few};
ghost use Rattle.layers.specs.Layers.{fitting, segment, ShowsAPart};

use trace::reading::{Cause, Reading, raised};
use trace::source::{Source, index_of};

// The instants `first` to `last` of a source.
#[derive(Drop)]
pub struct Segment<S> {
    pub below: S,
    pub first: usize,
    pub last: usize,
}

impl<S: Source> Segment<S> {
    // Whether the trace below has all these instants, and there is one at least. With it stands what a segment means.
    fn in_range(&self) -> bool
        ensures value { result ≡ fitting self.now.first self.now.last (S.Source.readings self.now.below) }
        ensures law { ShowsAPart }
    {
        1 <= self.first && self.first <= self.last && self.last <= self.below.len()
    }
}

impl<S: Source> Source for Segment<S> {
    ghost readings = { λ s. segment s.first s.last (S.Source.readings s.below) };

    ghost few = { λ s. segment_few s.first s.last (S.Source.readings s.below) (S.Source.few s.below) };

    fn len(&self) -> usize {
        if self.in_range() {
            self.last - self.first + 1
        } else {
            1
        }
    }

    fn reading(&self, instant: usize) -> Reading {
        if !self.in_range() {
            return Cause::BadSegment.at(self.first).alone(instant);
        }
        let index = index_of(instant, self.len())?;
        raised(self.below.reading(self.first + index))
    }
}
