// A record, which is bytes that the caller keeps, as a trace: one text for every layout of the bytes.
ghost use Rattle.std.specs.Prelude.{◌≡◌, ℕ, List, map, slice_get, ⊤};
ghost use Rattle.bottoms.specs.Bounds.{bounded_few};
ghost use Rattle.bottoms.specs.Records.{Instant, bounded, extent_of};

use std::alloc::AllocError;
use std::marker::PhantomData;
use trace::reading::{Cause, Fault, Reading};
use trace::source::Source;

// How the bytes of a record stand for instants.
pub trait Layout {
    // The instants that the bytes stand for, however many, each with the place where it begins.
    ghost instants: { List ℕ → List Instant };

    // How many instants the bytes hold; or, where there are more than 1,024, the place where instant 1,025 begins.
    fn extent(bytes: &[u8]) -> Result<usize, usize>
        ensures { result ≡ extent_of (instants bytes.now) };

    // What an instant shows, by its index from 0; none past the last.
    fn shown(bytes: &[u8], index: usize) -> Option<Reading>
        ensures { result ≡ slice_get (map (λ x. x.reading) (instants bytes.now)) index };
}

// The trace of a record in this layout, with its extent, which is measured once.
pub struct Record<'a, L: Layout> {
    bytes: &'a [u8],
    extent: Result<usize, usize>,
    layout: PhantomData<L>,
    ghost measured: { extent ≡ extent_of (L.Layout.instants bytes.now) },
}

// A copy is the same record. Written by hand, since no derive copies a generic struct with a ghost field.
impl<'a, L: Layout> Clone for Record<'a, L> {
    ghost is_clone = { λ s copy. copy ≡ s };

    ghost is_infallible = { λ _. ⊤ };

    fn clone(&self) -> Result<Record<'a, L>, AllocError> {
        Ok(*self)
    }
}

impl<'a, L: Layout> Copy for Record<'a, L> {}

impl<'a, L: Layout> Record<'a, L> {
    // The trace of these bytes.
    pub fn new(bytes: &'a [u8]) -> Record<'a, L>
        ensures { result.bytes ≡ bytes.entry }
    {
        let extent = L::extent(bytes);
        Record {
            bytes,
            extent,
            layout: PhantomData,
        }
    }
}

impl<'a, L: Layout> Source for Record<'a, L> {
    ghost readings = { λ s. bounded (L.Layout.instants s.bytes.now) };

    ghost few = { λ s. bounded_few (L.Layout.instants s.bytes.now) };

    fn len(&self) -> usize {
        self.extent.unwrap_or(1)
    }

    fn reading(&self, instant: usize) -> Reading {
        if let Err(place) = self.extent {
            return Cause::TooLong.at(place).alone(instant);
        }
        if instant == 0 {
            return Err(Fault::outside(instant));
        }
        match L::shown(self.bytes, instant - 1) {
            Some(reading) => reading,
            None => Err(Fault::outside(instant)),
        }
    }
}
