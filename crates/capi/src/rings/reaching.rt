//! The ring that a call is on: one that the last call was on is known, any other is looked up.
ghost use Rattle.std.specs.Prelude.{◌≡◌, ◌<◌, ◌≤◌, length, true, false};
ghost use Rattle.fabric.specs.Hands.{rings_of};
ghost use Rattle.fabric.specs.Places.{IsPlaceOf, place_ring};

use crate::rings::member::Rings;
use fabric::Place;

/// Goes to a ring.
#[inline(always)]
pub(crate) fn reach(f: &Rings, at: &mut Place, ring: usize)
    requires of { IsPlaceOf f.now at.old }
    requires ring { ring < length (rings_of f.now) }
    ensures of { IsPlaceOf f.now at.new }
    ensures there { place_ring at.new ≡ ring }
{
    if at.ring() != ring {
        *at = f.place(ring);
    }
}

/// Goes to a ring, if there is one of this number.
#[inline(always)]
pub(crate) fn try_reach(f: &Rings, at: &mut Place, ring: usize) -> bool
    requires of { IsPlaceOf f.now at.old }
    ensures of { IsPlaceOf f.now at.new }
    ensures there { result ≡ true → (place_ring at.new ≡ ring) × (ring < length (rings_of f.now)) }
    ensures none { result ≡ false → length (rings_of f.now) ≤ ring }
{
    if at.ring() == ring {
        return true;
    }
    if ring >= f.rings() {
        return false;
    }
    *at = f.place(ring);
    true
}
