//! One thread's way to a pool of numbers: a cache in front of the free ring, and the rings that pass numbers on.
ghost use Rattle.std.specs.Prelude.{◌≡◌, ◌+◌, length};
ghost use Rattle.fabric.specs.Hands.{rings_of};
ghost use Rattle.pool.specs.Locals.{ring_of};
ghost use Rattle.capi.specs.PoolMembers.{ArePoolRings, SuitsCache};

use arrayvec::ArrayVec;
use burst::{Slot, Tagged, Word};
use fabric::{Fabric, Hand};
use pool::LocalWords;
use ringapi::Spares;
use std::sync::Arc;

/// The most numbers of one call, and of one request to a ring.
pub(crate) const MAX_NUMBERS: usize = 4096;

/// The most numbers of a get that fills the cache, too. A longer one asks only for those that it lacks.
pub(crate) const MAX_FILLING: usize = 512;

/// The most numbers that such a get asks for: those of the call and a whole cache.
pub(crate) const MAX_ASKED: usize = 1024;

/// The largest size of a cache.
pub(crate) const MAX_CACHE: u32 = 512;

/// The most numbers of a pool.
pub(crate) const MAX_POOL: u32 = (1 << 20) - 1;

/// The most rings that pass numbers on: a set of rings has 64, and one is the free ring.
pub(crate) const MAX_POOL_RINGS: u32 = 63;

/// The rings of a pool.
pub(crate) type PoolRings = Fabric<Number, 4096, Slot<Number>>;

/// A hand on them.
pub(crate) type PoolHand = Hand<Number, Slot<Number>>;

/// The hands of threads that come later: none of them has a number.
pub(crate) type PoolSpares = Spares<Number, 4096, Slot<Number>>;

/// A cache in front of the free ring.
pub(crate) type PoolCache = LocalWords<Number, 4096, Slot<Number>>;

/// A number of a pool. The thread that has it owns what it stands for.
#[repr(C)]
#[derive(Drop, Clone, Copy, Debug)]
pub struct Number {
    pub value: u32,
}

impl Tagged for Number {
    ghost use Rattle.std.specs.Prelude.{[], ◌∷◌};

    ghost numbers = { λ n. n.value ∷ [] };

    #[inline]
    fn tags(&self, out: &mut ArrayVec<u32, 64>) {
        out.push(self.value);
    }

    #[inline]
    fn single_tag(&self) -> Option<u32> {
        Some(self.value)
    }
}

impl Word for Number {
    #[inline]
    fn blank() -> Number {
        Number { value: 0 }
    }
}

/// A cache with its rings, so that no call brings together a cache and rings of another pool. Ring 0 is the free ring.
#[derive(Drop)]
pub struct PoolMember {
    pub fabric: Arc<PoolRings>,
    pub local: PoolCache,
    pub spares: Arc<PoolSpares>,
    /// How many rings pass numbers on: those after the free ring.
    pub rings: usize,
    pub ghost plans: { ArePoolRings (rings_of fabric.value) },
    pub ghost many: { length (rings_of fabric.value) ≡ rings + 1 },
    pub ghost first: { ring_of local ≡ 0 },
    pub ghost suits: { SuitsCache fabric.value local },
    pub ghost spare: { spares.value.lock.key ≡ fabric.value },
}
