//! Calls on a cache of words, into slices and from slices. What the cache can do is inlined, and what goes to the ring
//! is not.
ghost use Rattle.std.specs.Prelude.{◌≡◌, ◌+◌, ◌<◌, ◌≤◌, ◌++◌, List, drop, length, IfOk, IfErr};
ghost use Rattle.fabric.specs.Hands.{OnRing, rings_of};
ghost use Rattle.fabric.specs.Settles.{AreOwnBuffers};
ghost use Rattle.ringapi.specs.Views.{by_burst};
ghost use Rattle.pool_laws.specs.Beside.{Receives, Sends, unsent_of};
ghost use Rattle.pool_laws.specs.Caches.{threshold};
ghost use Rattle.pool_laws.specs.Calls.{GetsCached, PutsCached};
ghost use Rattle.pool.specs.Calls.{FlushTells, GetTells, PutBackTells};
ghost use Rattle.pool.specs.Locals.{HasSameHand, IsLocalOf, SameCache, SameRing, cache_of, cache_size, hand_of, ring_of, view_of};
ghost use Rattle.pool.specs.Slices.{filled, undone};

use crate::hands::take_hand;
use crate::local::Local;
use crate::set_aside::{keep_back, whole_hand};
use crate::store::{Accepts, Store};
use crate::word_stack::WordStack;
use crate::words::{empty, fetch, shed};
use burst::Word;
use fabric::{Fabric, Front, StartFault, Stored, Words};
use pool_laws::PoolFault;
use ringapi::{Moved, Refusal};
use std::sync::Wait;

/// A hand with a cache of words of a free ring, each of which carries one buffer: a stack over an array, its newest
/// last. Gets copy words into slices and puts copy them out of slices.
pub type LocalWords<T, const N: usize, S> = Local<T, N, S, WordStack<T>>;

impl<T: Word, const N: usize, S: Stored<T>> Local<T, N, S, WordStack<T>> {
    /// Gets as many words as a slice has places, 1 to 64: the newest of the cache, the newest first. If it has too few:
    /// all of them, followed by the first ones of a bulk take of the missing and `size` more; the others of that take
    /// are the cache afterwards, in the ring's order. If that take is refused, a take of only the missing ones is
    /// tried.
    ///
    /// Errors, if that is refused too: `Short` if it found too few; `Worn`. Nothing moves then, and the slice isn't
    /// changed. No memory; it waits while the ring is busy, but not for words.
    #[inline]
    pub fn get_into_slice<R: Wait>(
        &mut self,
        rt: &R,
        f: &Fabric<T, N, S>,
        into: &mut [T],
    ) -> Result<(), PoolFault>
        requires local { IsLocalOf f.now self.old }
        requires nonzero { 0 < length into.old }
        requires at_most { length into.old ≤ 64 }
        ensures local { IsLocalOf f.now self.new }
        ensures same { SameRing self.old self.new }
        ensures exact { OnRing f.now (ring_of self.old)
            (λ plan. GetTells T.numbers plan self.old self.new (length into.old) result (filled result into.new)) }
        ensures back { IfErr result (λ _. into.new ≡ into.old) }
        ensures own { IfOk result (λ _. AreOwnBuffers T.numbers (view_of self.new) (into.new ++ cache_of self.new)) }
    {
        if into.len() <= self.cache.len() {
            return self.get_cached_into_slice(into);
        }
        self.get_slice_from_ring(rt, f, into)
    }

    /// Gets as many words as a slice has places if the cache has too few. A function of its own, which isn't inlined,
    /// since a get from the cache alone then takes fewer instructions.
    #[inline(never)]
    fn get_slice_from_ring<R: Wait>(
        &mut self,
        rt: &R,
        f: &Fabric<T, N, S>,
        into: &mut [T],
    ) -> Result<(), PoolFault>
        requires local { IsLocalOf f.now self.old }
        requires short { length (cache_of self.old) < length into.old }
        requires at_most { length into.old ≤ 64 }
        ensures local { IsLocalOf f.now self.new }
        ensures same { SameRing self.old self.new }
        ensures exact { OnRing f.now (ring_of self.old)
            (λ plan. GetTells T.numbers plan self.old self.new (length into.old) result (filled result into.new)) }
        ensures back { IfErr result (λ _. into.new ≡ into.old) }
        ensures own { IfOk result (λ _. AreOwnBuffers T.numbers (view_of self.new) (into.new ++ cache_of self.new)) }
    {
        let cache_hand = take_hand(&mut self.hand);
        let hand = whole_hand(cache_hand, &self.cache);
        match fetch(rt, f, hand, self.ring, self.size, &mut self.cache, into) {
            Ok(hand) => {
                self.hand = Some(keep_back(hand, &self.cache));
                Ok(())
            }
            Err((hand, fault)) => {
                self.hand = Some(keep_back(hand, &self.cache));
                Err(fault)
            }
        }
    }

    /// Puts the words of a slice, at most 64: pushes them onto the cache, in order. If its threshold,
    /// `floor(3 * size / 2)`, would be passed, the oldest of cache and slice together go to the ring in one bulk put,
    /// until `size` are left.
    ///
    /// Errors: `NotYours`, tested first; `Worn`. Nothing moves then. No memory; it waits while the ring is busy.
    #[inline]
    pub fn put_from_slice<R: Wait>(
        &mut self,
        rt: &R,
        f: &Fabric<T, N, S>,
        items: &[T],
    ) -> Result<(), PoolFault>
        requires local { IsLocalOf f.now self.old }
        requires at_most { length items.now ≤ 64 }
        ensures local { IsLocalOf f.now self.new }
        ensures same { SameRing self.old self.new }
        ensures exact { OnRing f.now (ring_of self.old)
            (λ plan. PutBackTells T.numbers plan self.old self.new items.now result (undone result items.now)) }
    {
        if self.would_pass(items.len()) {
            return self.put_slice_on_ring(rt, f, items);
        }
        let may = match &mut self.hand {
            Some(cache_hand) => self.cache.admit(cache_hand, &mut Words { words: items }),
            None => unreachable!(),
        };
        if may {
            Ok(())
        } else {
            Err(PoolFault::NotYours)
        }
    }

    /// Puts words with which the cache would pass its threshold. A function of its own, as `get_slice_from_ring` is.
    #[inline(never)]
    fn put_slice_on_ring<R: Wait>(
        &mut self,
        rt: &R,
        f: &Fabric<T, N, S>,
        items: &[T],
    ) -> Result<(), PoolFault>
        requires local { IsLocalOf f.now self.old }
        requires at_most { length items.now ≤ 64 }
        requires many { threshold (cache_size self.old) < length (cache_of self.old) + length items.now }
        ensures local { IsLocalOf f.now self.new }
        ensures same { SameRing self.old self.new }
        ensures exact { OnRing f.now (ring_of self.old)
            (λ plan. PutBackTells T.numbers plan self.old self.new items.now result (undone result items.now)) }
    {
        let before = self.cache.len();
        let may = match &mut self.hand {
            Some(cache_hand) => self.cache.admit(cache_hand, &mut Words { words: items }),
            None => unreachable!(),
        };
        if !may {
            return Err(PoolFault::NotYours);
        }
        let cache_hand = take_hand(&mut self.hand);
        match shed(
            rt,
            f,
            cache_hand,
            self.ring,
            self.size,
            before,
            &mut self.cache,
        ) {
            Ok(cache_hand) => {
                self.hand = Some(cache_hand);
                Ok(())
            }
            Err(cache_hand) => {
                self.hand = Some(cache_hand);
                Err(PoolFault::Worn)
            }
        }
    }

    /// Puts all of the cache on the ring in one bulk put, the oldest first, if it isn't empty.
    ///
    /// Errors: `Worn`. The cache isn't changed then. No memory; it waits while the ring is busy.
    pub fn flush<R: Wait>(&mut self, rt: &R, f: &Fabric<T, N, S>) -> Result<(), PoolFault>
        requires local { IsLocalOf f.now self.old }
        ensures local { IsLocalOf f.now self.new }
        ensures same { SameRing self.old self.new }
        ensures exact { OnRing f.now (ring_of self.old) (λ plan. FlushTells T.numbers plan self.old self.new result) }
    {
        let cache_hand = take_hand(&mut self.hand);
        let hand = whole_hand(cache_hand, &self.cache);
        match empty(rt, f, hand, self.ring, &mut self.cache) {
            Ok(hand) => {
                self.hand = Some(keep_back(hand, &self.cache));
                Ok(())
            }
            Err(hand) => {
                self.hand = Some(keep_back(hand, &self.cache));
                Err(PoolFault::Worn)
            }
        }
    }

    /// Fills a slice from the cache alone, the newest word first. No step on a word of the fabric, no memory, no
    /// waiting.
    ///
    /// Errors: `Short` if the cache has fewer words; nothing moves then, and the slice isn't changed.
    #[inline]
    pub fn get_cached_into_slice(&mut self, into: &mut [T]) -> Result<(), PoolFault>
        ensures same { SameRing self.old self.new × HasSameHand self.old self.new }
        ensures exact { GetsCached (length into.old) (cache_of self.old) result (filled result into.new)
            (cache_of self.new) }
        ensures back { IfErr result (λ _. into.new ≡ into.old) }
        ensures own { IfOk result (λ _. AreOwnBuffers T.numbers (view_of self.new) (into.new ++ cache_of self.new)) }
    {
        let n = into.len();
        let mut front = Front {
            words: into,
            count: 0,
        };
        self.get_from_cache(n, &mut front)
    }

    /// Pushes the words of a slice onto the cache, in order. No step on a word of the fabric, no memory, no waiting.
    ///
    /// Errors, in the order of the tests: `NotYours`; `CacheFull` if the threshold, `floor(3 * size / 2)`, would be
    /// passed. Nothing moves then.
    #[inline]
    pub fn put_cached_from_slice(&mut self, items: &[T]) -> Result<(), PoolFault>
        ensures same { SameRing self.old self.new × HasSameHand self.old self.new }
        ensures exact { PutsCached T.numbers (view_of self.old) (cache_size self.old) (cache_of self.old) items.now
            result (undone result items.now) (cache_of self.new) }
    {
        self.put_in_cache(&mut Words { words: items })
    }

    /// Puts as many words of a slice as there is room for on a ring of the fabric, from its front, and tries again
    /// while the ring is busy: `Moved::count` says how many. The cache isn't changed.
    ///
    /// Errors, in the order of the tests: `NotYours` if the words carry buffers that aren't the hand's own or that are
    /// cached, before any step; `Start`: `BadCount` if the slice is empty; `NoRoom`; `Worn`. No memory; it doesn't wait
    /// for room.
    pub fn send_from_slice<R: Wait>(
        &mut self,
        rt: &R,
        f: &Fabric<T, N, S>,
        ring: usize,
        items: &[T],
    ) -> Result<Moved, Refusal>
        requires local { IsLocalOf f.now self.old }
        requires ring { ring < length (rings_of f.now) }
        ensures local { IsLocalOf f.now self.new }
        ensures same { SameRing self.old self.new × SameCache self.old self.new }
        ensures exact { OnRing f.now ring (λ plan. Sends T.numbers by_burst N ring plan (hand_of self.old)
            (hand_of self.new) (cache_of self.old) items.now result (unsent_of result items.now)) }
    {
        self.send(rt, f, ring, &mut Words { words: items })
    }

    /// Takes at most as many words from a ring of the fabric as a slice has places, as many as are queued, and tries
    /// again while the ring is busy. The words are at the front of the slice afterwards, and `Moved::count` says how
    /// many; the places after them, and at a refusal all places, are unchanged. The cache isn't changed.
    ///
    /// Errors, in the order of the tests: `BadCount` if the slice is empty or has more than `N` places; `NoRoom` if
    /// nothing is queued; `Worn`. No memory; it doesn't wait for words.
    pub fn receive_into_slice<R: Wait>(
        &mut self,
        rt: &R,
        f: &Fabric<T, N, S>,
        ring: usize,
        into: &mut [T],
    ) -> Result<Moved, StartFault>
        requires local { IsLocalOf f.now self.old }
        requires ring { ring < length (rings_of f.now) }
        ensures local { IsLocalOf f.now self.new }
        ensures same { SameRing self.old self.new × SameCache self.old self.new }
        ensures exact { (shown : List T) × (into.new ≡ shown ++ drop (length shown) into.old)
            × OnRing f.now ring (λ plan. Receives T.numbers by_burst N ring plan (hand_of self.old) (hand_of self.new)
            (length into.old) result shown) }
    {
        let n = into.len();
        let mut front = Front {
            words: into,
            count: 0,
        };
        self.receive(rt, f, ring, n, &mut front)
    }
}
