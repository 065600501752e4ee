//! Making a cache, and getting its hand and its items back.
ghost use Rattle.std.specs.Prelude.{◌≡◌, ◌+◌, ◌<◌, ◌≤◌, ◌⊎◌, ◌++◌, [], length, true, IfOk, IfErr};
ghost use Rattle.fabric.specs.Hands.{SameHand, view};
ghost use Rattle.fabric.specs.Settles.{AreNotOwnBuffers, AreOwnBuffers};
ghost use Rattle.pool_laws.specs.Caches.{threshold};
ghost use Rattle.pool_laws.specs.Calls.{RefusesCache};
ghost use Rattle.ringapi.specs.Holdings.{IsFreeRing};
ghost use Rattle.pool.specs.Locals.{HasHand, cache_of, ring_of, cache_size};
ghost use Rattle.pool_laws.specs.declared.faults.PoolFault.TheVariants.{BadSize};

use crate::local::Local;
use crate::set_aside::whole_hand;
use crate::sizes::may_be;
use crate::store::{Accepts, Store};
use burst::{Burst, Tagged};
use fabric::{Hand, PutItems, Stored};
use pool_laws::PoolFault;

impl<T: Tagged, const N: usize, S: Stored<T>, C: Store<T> + Drop> Local<T, N, S, C> {
    /// A cache of this size, which is possible, that has nothing.
    pub(crate) fn over(hand: Hand<T, S>, cache: C, ring: usize, size: usize) -> Local<T, N, S, C>
        requires free { IsFreeRing (view hand).plans ring }
        requires empty { C.items cache ≡ [] }
        requires reach { C.reach cache (view hand).pool ≡ true }
        requires small { size ≤ 512 }
        requires fits { threshold size + 64 ≤ N }
        requires room { threshold size + 64 ≤ C.room cache }
        ensures made { HasHand hand result × (ring_of result ≡ ring) × (cache_size result ≡ size) }
        ensures empty { cache_of result ≡ [] }
    {
        Local {
            hand: Some(hand.into_cache_hand()),
            ring,
            size,
            cache,
        }
    }

    /// A cache of this size, which is possible, that has the items of a list. Errors, in the order of the tests:
    /// `NotYours`; `CacheFull`. The list still has its items then.
    pub(crate) fn over_list<I: PutItems<T>>(
        hand: Hand<T, S>,
        cache: C,
        list: &mut I,
        ring: usize,
        size: usize,
    ) -> Result<Local<T, N, S, C>, (Hand<T, S>, PoolFault)>
    where
        C: Accepts<T, I>,
        requires free { IsFreeRing (view hand).plans ring }
        requires empty { C.items cache ≡ [] }
        requires reach { C.reach cache (view hand).pool ≡ true }
        requires small { size ≤ 512 }
        requires fits { threshold size + 64 ≤ N }
        requires room { threshold size + 64 ≤ C.room cache }
        ensures made { IfOk result (λ l. HasHand hand l × (ring_of l ≡ ring) × (cache_size l ≡ size)) }
        ensures cached { IfOk result (λ l. cache_of l ≡ I.items list.old) }
        ensures back { IfErr result (λ e. SameHand hand e.0 × (I.items list.new ≡ I.items list.old)) }
        ensures refused { IfErr result (λ e. RefusesCache T.numbers (view hand) size N (I.items list.old) e.1) }
    {
        let mut local = Local::over(hand, cache, ring, size);
        match local.put_in_cache(list) {
            Ok(()) => Ok(local),
            Err(fault) => {
                let (hand, _) = local.into_hand();
                Err((hand, fault))
            }
        }
    }

    /// The hand, and what has the items of the cache, the oldest first: the burst, or the stack of words
    /// (`WordStack::into_words`).
    pub fn into_hand(self) -> (Hand<T, S>, C)
        ensures hand { HasHand result.0 self }
        ensures cache { cache_of self ≡ C.items result.1 }
    {
        let Local { hand, cache, .. } = self;
        match hand {
            Some(cache_hand) => (whole_hand(cache_hand, &cache), cache),
            None => unreachable!(),
        }
    }
}

impl<T: Tagged, const N: usize, S: Stored<T>> Local<T, N, S> {
    /// An empty cache of this size, 0 to 512, in front of a free ring. Requires: the ring is one of the hand's fabric,
    /// and free. Errors: `BadSize` if the size is above 512, or `floor(3 * size / 2) + 64` above `N`; the hand comes
    /// back.
    pub fn new(
        hand: Hand<T, S>,
        ring: usize,
        size: usize,
    ) -> Result<Local<T, N, S>, (Hand<T, S>, PoolFault)>
        requires free { IsFreeRing (view hand).plans ring }
        ensures made { IfOk result (λ l. HasHand hand l × (ring_of l ≡ ring) × (cache_size l ≡ size)) }
        ensures empty { IfOk result (λ l. cache_of l ≡ []) }
        ensures fits { IfOk result (λ l. (size ≤ 512) × (threshold size + 64 ≤ N)) }
        ensures refused { IfErr result (λ e. (e.0 ≡ hand) × (e.1 ≡ BadSize)) }
        ensures size { IfErr result (λ e. (512 < size) ⊎ (N < threshold size + 64)) }
    {
        if !may_be(size, N) {
            return Err((hand, PoolFault::BadSize));
        }
        Ok(Local::over(hand, Burst::new(), ring, size))
    }

    /// A cache of this size that has these items, the oldest first, as `into_hand` returned them. Requires: as for
    /// `new`.
    ///
    /// Errors, in the order of the tests: `BadSize`, as for `new`; `NotYours`; `CacheFull` if there are more than
    /// `floor(3 * size / 2)`. The hand and the items come back. No step on a word, no memory.
    pub fn resume(
        hand: Hand<T, S>,
        items: Burst<T, N>,
        ring: usize,
        size: usize,
    ) -> Result<Local<T, N, S>, (Hand<T, S>, Burst<T, N>, PoolFault)>
        requires free { IsFreeRing (view hand).plans ring }
        ensures made { IfOk result (λ l. HasHand hand l × (ring_of l ≡ ring) × (cache_size l ≡ size)) }
        ensures cached { IfOk result (λ l. cache_of l ≡ items) }
        ensures fits { IfOk result (λ l. (size ≤ 512) × (threshold size + 64 ≤ N)) }
        ensures back { IfErr result (λ e. SameHand hand e.0 × (e.1 ≡ items)) }
        ensures refused { IfErr result (λ e. RefusesCache T.numbers (view hand) size N items e.2) }
    {
        if !may_be(size, N) {
            return Err((hand, items, PoolFault::BadSize));
        }
        let mut list = items;
        match Local::over_list(hand, Burst::new(), &mut list, ring, size) {
            Ok(local) => Ok(local),
            Err((hand, fault)) => Err((hand, list, fault)),
        }
    }
}
