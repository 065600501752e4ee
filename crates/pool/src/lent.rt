//! Calls that borrow a burst.
ghost use Rattle.std.specs.Prelude.{◌≡◌, ◌+◌, ◌<◌, ◌≤◌, ◌++◌, [], length, IfOk};
ghost use Rattle.fabric.specs.Hands.{OnRing, rings_of};
ghost use Rattle.fabric.specs.Settles.{AreOwnBuffers};
ghost use Rattle.ringapi.specs.Views.{by_burst};
ghost use Rattle.pool_laws.specs.Beside.{Receives, Sends};
ghost use Rattle.pool_laws.specs.Caches.{threshold};
ghost use Rattle.pool_laws.specs.Calls.{GetsCached, PutsCached};
ghost use Rattle.pool.specs.Calls.{FlushTells, GetTells, PutBackTells};
ghost use Rattle.pool.specs.Locals.{HasSameHand, IsLocalOf, SameCache, SameRing, cache_of, cache_size, hand_of, ring_of, view_of};

use crate::bursts::{empty, fetch, shed};
use crate::hands::take_hand;
use crate::local::Local;
use crate::set_aside::{keep_back, whole_hand};
use crate::store::Accepts;
use burst::{Burst, Tagged};
use fabric::{Fabric, StartFault, Stored};
use pool_laws::PoolFault;
use ringapi::{Moved, Refusal};
use std::sync::Wait;

impl<T: Tagged, const N: usize, S: Stored<T>> Local<T, N, S> {
    /// Gets `n` items into an empty list, 1 to 64: the newest of the cache, the newest first. If it has too few: all of
    /// them, followed by the first ones of a bulk take of the missing and `size` more; the others of that take are the
    /// cache afterwards, in the ring's order. If that take is refused, a take of only the missing ones is tried.
    ///
    /// Errors, if that is refused too: `Short` if it found too few; `Worn`. Nothing moves then. No memory; it waits
    /// while the ring is busy, but not for items.
    #[inline]
    pub fn get_into<R: Wait>(
        &mut self,
        rt: &R,
        f: &Fabric<T, N, S>,
        n: usize,
        into: &mut Burst<T, N>,
    ) -> Result<(), PoolFault>
        requires local { IsLocalOf f.now self.old }
        requires nonzero { 0 < n }
        requires at_most { n ≤ 64 }
        requires empty { into.old ≡ [] }
        ensures local { IsLocalOf f.now self.new }
        ensures same { SameRing self.old self.new }
        ensures exact { OnRing f.now (ring_of self.old)
            (λ plan. GetTells T.numbers plan self.old self.new n result into.new) }
        ensures own { IfOk result (λ _. AreOwnBuffers T.numbers (view_of self.new) (into.new ++ cache_of self.new)) }
    {
        if n <= self.cache.len() {
            return self.get_cached_into(n, into);
        }
        self.get_from_ring(rt, f, n, into)
    }

    /// Gets `n` items if the cache has too few. A function of its own, which isn't inlined, since a get from the cache
    /// alone then takes fewer instructions.
    #[inline(never)]
    fn get_from_ring<R: Wait>(
        &mut self,
        rt: &R,
        f: &Fabric<T, N, S>,
        n: usize,
        into: &mut Burst<T, N>,
    ) -> Result<(), PoolFault>
        requires local { IsLocalOf f.now self.old }
        requires short { length (cache_of self.old) < n }
        requires at_most { n ≤ 64 }
        requires empty { into.old ≡ [] }
        ensures local { IsLocalOf f.now self.new }
        ensures same { SameRing self.old self.new }
        ensures exact { OnRing f.now (ring_of self.old)
            (λ plan. GetTells T.numbers plan self.old self.new n result into.new) }
        ensures own { IfOk result (λ _. AreOwnBuffers T.numbers (view_of self.new) (into.new ++ cache_of self.new)) }
    {
        let cache_hand = take_hand(&mut self.hand);
        let hand = whole_hand(cache_hand, &self.cache);
        match fetch(rt, f, hand, self.ring, self.size, &mut self.cache, n, into) {
            Ok(hand) => {
                self.hand = Some(keep_back(hand, &self.cache));
                Ok(())
            }
            Err((hand, fault)) => {
                self.hand = Some(keep_back(hand, &self.cache));
                Err(fault)
            }
        }
    }

    /// Puts a list of at most 64 items: pushes them onto the cache, in order. If its threshold, `floor(3 * size / 2)`,
    /// would be passed, the oldest of cache and list together go to the ring in one bulk put, until `size` are left.
    ///
    /// Errors: `NotYours`, tested first; `Worn`. Nothing moves then, and the list still has its items. No memory; it
    /// waits while the ring is busy.
    #[inline]
    pub fn put_from<R: Wait>(
        &mut self,
        rt: &R,
        f: &Fabric<T, N, S>,
        list: &mut Burst<T, N>,
    ) -> Result<(), PoolFault>
        requires local { IsLocalOf f.now self.old }
        requires at_most { length list.old ≤ 64 }
        ensures local { IsLocalOf f.now self.new }
        ensures same { SameRing self.old self.new }
        ensures exact { OnRing f.now (ring_of self.old)
            (λ plan. PutBackTells T.numbers plan self.old self.new list.old result list.new) }
    {
        if self.would_pass(list.len()) {
            return self.put_on_ring(rt, f, list);
        }
        let may = match &mut self.hand {
            Some(cache_hand) => self.cache.admit(cache_hand, list),
            None => unreachable!(),
        };
        if may {
            Ok(())
        } else {
            Err(PoolFault::NotYours)
        }
    }

    /// Puts a list with which the cache would pass its threshold. A function of its own, as `get_from_ring` is.
    #[inline(never)]
    fn put_on_ring<R: Wait>(
        &mut self,
        rt: &R,
        f: &Fabric<T, N, S>,
        list: &mut Burst<T, N>,
    ) -> Result<(), PoolFault>
        requires local { IsLocalOf f.now self.old }
        requires at_most { length list.old ≤ 64 }
        requires many { threshold (cache_size self.old) < length (cache_of self.old) + length list.old }
        ensures local { IsLocalOf f.now self.new }
        ensures same { SameRing self.old self.new }
        ensures exact { OnRing f.now (ring_of self.old)
            (λ plan. PutBackTells T.numbers plan self.old self.new list.old result list.new) }
    {
        let before = self.cache.len();
        let may = match &mut self.hand {
            Some(cache_hand) => self.cache.admit(cache_hand, list),
            None => unreachable!(),
        };
        if !may {
            return Err(PoolFault::NotYours);
        }
        let cache_hand = take_hand(&mut self.hand);
        match shed(
            rt,
            f,
            cache_hand,
            self.ring,
            self.size,
            before,
            &mut self.cache,
            list,
        ) {
            Ok(cache_hand) => {
                self.hand = Some(cache_hand);
                Ok(())
            }
            Err(cache_hand) => {
                self.hand = Some(cache_hand);
                Err(PoolFault::Worn)
            }
        }
    }

    /// Puts all of the cache on the ring in one bulk put, the oldest first, if it isn't empty.
    ///
    /// Errors: `Worn`. The cache isn't changed then. No memory; it waits while the ring is busy.
    pub fn flush<R: Wait>(&mut self, rt: &R, f: &Fabric<T, N, S>) -> Result<(), PoolFault>
        requires local { IsLocalOf f.now self.old }
        ensures local { IsLocalOf f.now self.new }
        ensures same { SameRing self.old self.new }
        ensures exact { OnRing f.now (ring_of self.old) (λ plan. FlushTells T.numbers plan self.old self.new result) }
    {
        let cache_hand = take_hand(&mut self.hand);
        let hand = whole_hand(cache_hand, &self.cache);
        match empty(rt, f, hand, self.ring, &mut self.cache) {
            Ok(hand) => {
                self.hand = Some(keep_back(hand, &self.cache));
                Ok(())
            }
            Err(hand) => {
                self.hand = Some(keep_back(hand, &self.cache));
                Err(PoolFault::Worn)
            }
        }
    }

    /// Gets `n` items from the cache alone, the newest first, into an empty list. Errors: `Short` if it has fewer;
    /// nothing moves then. No step on a word, no memory, no waiting.
    #[inline]
    pub fn get_cached_into(&mut self, n: usize, into: &mut Burst<T, N>) -> Result<(), PoolFault>
        requires empty { into.old ≡ [] }
        ensures same { SameRing self.old self.new × HasSameHand self.old self.new }
        ensures exact { GetsCached n (cache_of self.old) result into.new (cache_of self.new) }
        ensures own { IfOk result (λ _. AreOwnBuffers T.numbers (view_of self.new) (into.new ++ cache_of self.new)) }
    {
        self.get_from_cache(n, into)
    }

    /// Pushes the items of a list onto the cache, in order. The list is empty afterwards.
    ///
    /// Errors, in the order of the tests: `NotYours`; `CacheFull` if the threshold, `floor(3 * size / 2)`, would be
    /// passed. Nothing moves then, and the list still has its items. No step on a word, no memory, no waiting.
    #[inline]
    pub fn put_cached_from(&mut self, list: &mut Burst<T, N>) -> Result<(), PoolFault>
        ensures same { SameRing self.old self.new × HasSameHand self.old self.new }
        ensures exact { PutsCached T.numbers (view_of self.old) (cache_size self.old) (cache_of self.old) list.old
            result list.new (cache_of self.new) }
    {
        self.put_in_cache(list)
    }

    /// Puts as many items of a list as there is room for on a ring of the fabric, from its front, and tries again while
    /// the ring is busy. What was not moved stays in the list, in order; the cache isn't changed.
    ///
    /// Errors, in the order of the tests: `NotYours` if the items carry buffers that aren't the hand's own or that are
    /// cached, before any step; `Start`: `BadCount` if the list is empty; `NoRoom`; `Worn`. No memory; it doesn't wait
    /// for room.
    pub fn send_from<R: Wait>(
        &mut self,
        rt: &R,
        f: &Fabric<T, N, S>,
        ring: usize,
        list: &mut Burst<T, N>,
    ) -> Result<Moved, Refusal>
        requires local { IsLocalOf f.now self.old }
        requires ring { ring < length (rings_of f.now) }
        ensures local { IsLocalOf f.now self.new }
        ensures same { SameRing self.old self.new × SameCache self.old self.new }
        ensures exact { OnRing f.now ring (λ plan. Sends T.numbers by_burst N ring plan (hand_of self.old)
            (hand_of self.new) (cache_of self.old) list.old result list.new) }
    {
        self.send(rt, f, ring, list)
    }

    /// Takes at most `n` items from a ring of the fabric, as many as are queued, into an empty list, and tries again
    /// while the ring is busy. The cache isn't changed.
    ///
    /// Errors, in the order of the tests: `BadCount` if `n` is 0 or above `N`; `NoRoom` if none is queued; `Worn`. No
    /// memory; it doesn't wait for items.
    pub fn receive_into<R: Wait>(
        &mut self,
        rt: &R,
        f: &Fabric<T, N, S>,
        ring: usize,
        n: usize,
        into: &mut Burst<T, N>,
    ) -> Result<Moved, StartFault>
        requires local { IsLocalOf f.now self.old }
        requires ring { ring < length (rings_of f.now) }
        requires empty { into.old ≡ [] }
        ensures local { IsLocalOf f.now self.new }
        ensures same { SameRing self.old self.new × SameCache self.old self.new }
        ensures exact { OnRing f.now ring (λ plan. Receives T.numbers by_burst N ring plan (hand_of self.old)
            (hand_of self.new) n result into.new) }
    {
        self.receive(rt, f, ring, n, into)
    }
}
