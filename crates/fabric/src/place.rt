//! Where a ring is, for a caller that calls the same ring again and again: its number and its shape, looked up once.
ghost use Rattle.std.specs.Prelude.{◌≡◌, ◌<◌, length};
ghost use Rattle.fabric.specs.Hands.{rings_of};
ghost use Rattle.fabric.specs.Places.{IsKnown, IsPlaceOf, place_mode, place_ring};

use crate::fabric::Fabric;
use crate::plan::Shape;
use crate::ring::Ring;
use crate::stored::Stored;
use burst::Tagged;
use geom::{Mode, Side};

/// A ring's number, modes, size, and where its slots are.
#[derive(Clone, Copy)]
pub struct Place {
    pub(crate) index: usize,
    pub(crate) shape: Shape,
}

/// What a caller knows of a side of a ring. Where it is a constant, a call doesn't test it.
#[derive(Clone, Copy)]
pub struct Known {
    pub mode: Mode,
    /// Whether it is a free ring, whose items carry one buffer each.
    pub free: bool,
}

impl Place {
    /// The ring's number.
    #[inline(always)]
    pub fn ring(&self) -> usize
        ensures { result ≡ place_ring self.now }
    {
        self.index
    }

    /// The mode of a side of the ring.
    #[inline(always)]
    pub fn mode(&self, side: Side) -> Mode
        ensures { result ≡ place_mode self.now side }
    {
        self.shape.plan.mode(side)
    }

    /// What there is to know of a side.
    #[inline(always)]
    pub fn known(&self, side: Side) -> Known
        ensures { IsKnown self.now side result }
    {
        Known {
            mode: self.mode(side),
            free: self.shape.plan.free,
        }
    }
}

impl<T: Tagged, const N: usize, S: Stored<T>> Fabric<T, N, S> {
    /// Looks a ring up. Requires: there is a ring of this number.
    pub fn place(&self, ring: usize) -> Place
        requires { ring < length (rings_of self.now) }
        ensures ring { place_ring result ≡ ring }
        ensures of { IsPlaceOf self.now result }
    {
        Place {
            index: ring,
            shape: self.shapes[ring],
        }
    }

    /// The ring at a place, for a call on a side of which this is known.
    #[inline(always)]
    pub(crate) fn at<'f>(&'f self, place: &'f Place, side: Side, known: Known) -> Ring<'f, T, N, S>
        requires of { IsPlaceOf self.now place.now }
        requires known { IsKnown place.now side known }
        ensures of { result.fabric.now ≡ self.now }
        ensures index { result.index ≡ place.now.index }
        ensures shape { result.shape.now ≡ place.now.shape }
    {
        let plan = &place.shape.plan;
        let (put, take) = match side {
            Side::Put => (known.mode, plan.take),
            Side::Take => (plan.put, known.mode),
        };
        Ring {
            fabric: self,
            index: place.index,
            shape: &place.shape,
            put,
            take,
            free: known.free,
        }
    }
}
