// A trace read from its last instant to its first.
ghost use Rattle.std.specs.Prelude.{◌≡◌, ◌-◌, ◌<◌};
ghost use Rattle.layers.specs.Bounds.{reversed_few};
ghost use Rattle.layers.specs.Layers.{reversed, ShowsFromTheEnd};

use trace::reading::{Reading, raised};
use trace::source::{Source, index_of};

// A source the other way round.
#[derive(Drop)]
pub struct Reversed<S> {
    pub below: S,
}

// The instant of n that has as many instants after it as the index says. With it stands what reversing means.
fn from_end(n: usize, index: usize) -> usize
    requires { index < n }
    ensures value { result ≡ n - index }
    ensures law { ShowsFromTheEnd }
{
    n - index
}

impl<S: Source> Source for Reversed<S> {
    ghost readings = { λ s. reversed (S.Source.readings s.below) };

    ghost few = { λ s. reversed_few (S.Source.readings s.below) (S.Source.few s.below) };

    fn len(&self) -> usize {
        self.below.len()
    }

    fn reading(&self, instant: usize) -> Reading {
        let n = self.len();
        let index = index_of(instant, n)?;
        raised(self.below.reading(from_end(n, index)))
    }
}
