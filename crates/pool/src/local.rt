//! What a thread has of a pool: its hand, the free ring, and its cache.
ghost use Rattle.std.specs.Prelude.{◌≡◌, ◌≤◌, ◌+◌, length, true};
ghost use Rattle.std.specs.Option.{is_some};
ghost use Rattle.ringcore_laws.specs.FreeRings.{AreSingle};
ghost use Rattle.pool_laws.specs.Caches.{threshold};
ghost use Rattle.ringapi.specs.Holdings.{IsFreeRing};
ghost use Rattle.ringcore_laws.specs.Moves.{Owns};
ghost use Rattle.pool_laws.specs.Hands.{KeepsIn, view_in};
ghost use Rattle.pool.specs.Asides.{set_aside_of};

use crate::store::Store;
use burst::{Burst, Tagged};
use fabric::{CacheHand, Stored};

/// A hand with a cache of buffers of a free ring: a stack, its newest last. Each item in it carries one buffer, which
/// is the hand's own, and none occurs twice: so none of them is on a ring or belongs to another hand. The hand sets the
/// buffers of a list aside; those of a stack of words it doesn't, since the stack knows which it has. The cache is a
/// list of items, which move through bursts, unless another kind is named (`LocalWords`).
///
/// The hand is in an `Option` since calls on rings take it by value; between calls it is always there.
#[derive(Drop)]
pub struct Local<
    T: Tagged,
    const N: usize,
    S: Stored<T> = Option<T>,
    C: Store<T> + Drop = Burst<T, N>,
> {
    pub(crate) hand: Option<CacheHand<T, S>>,
    pub(crate) ring: usize,
    pub(crate) size: usize,
    pub(crate) cache: C,
    pub ghost here: { is_some hand ≡ true },
    pub ghost free: { IsFreeRing (view_in hand).plans ring },
    pub ghost small: { size ≤ 512 },
    pub ghost fits: { threshold size + 64 ≤ N },
    pub ghost room: { threshold size + 64 ≤ C.room cache },
    pub ghost within: { length (C.items cache) ≤ threshold size },
    pub ghost reach: { C.reach cache (view_in hand).pool ≡ true },
    pub ghost kept: { KeepsIn T.numbers hand (set_aside_of C.aside (C.items cache)) },
    pub ghost own: { Owns T.numbers (view_in hand).party (C.items cache) },
    pub ghost single: { AreSingle T.numbers (C.items cache) },
}
