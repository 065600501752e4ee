//! Queries about a cache.
ghost use Rattle.std.specs.Prelude.{◌≡◌, ◌==◌, ◌+◌, ◌-◌, ◌<◌, ◌≤◌, ◌↔◌, IsTrue, false, length, true};
ghost use Rattle.ringcore_laws.specs.Sound.{holds};
ghost use Rattle.pool_laws.specs.Caches.{threshold};
ghost use Rattle.pool.specs.Locals.{cache_of, cache_size, ring_of, view_of};

use crate::local::Local;
use crate::store::Store;
use burst::Tagged;
use fabric::Stored;

impl<T: Tagged, const N: usize, S: Stored<T>, C: Store<T> + Drop> Local<T, N, S, C> {
    /// How many items the cache has.
    pub fn len(&self) -> usize
        ensures { result ≡ length (cache_of self.now) }
    {
        self.cache.len()
    }

    /// Whether the cache is empty.
    pub fn is_empty(&self) -> bool
        ensures { result ≡ (length (cache_of self.now) == 0) }
    {
        self.cache.len() == 0
    }

    /// How many more items the cache takes, up to its threshold, `floor(3 * size / 2)`.
    #[inline(always)]
    pub fn room(&self) -> usize
        ensures { result ≡ threshold (cache_size self.now) - length (cache_of self.now) }
    {
        3 * self.size / 2 - self.cache.len()
    }

    /// Whether the cache would pass its threshold with so many more items.
    #[inline(always)]
    pub(crate) fn would_pass(&self, more: usize) -> bool
        requires at_most { more ≤ 64 }
        ensures yes { result ≡ true → threshold (cache_size self.now) < length (cache_of self.now) + more }
        ensures no { result ≡ false → length (cache_of self.now) + more ≤ threshold (cache_size self.now) }
    {
        self.cache.len() + more > 3 * self.size / 2
    }

    /// The size that the cache was made with.
    pub fn size(&self) -> usize
        ensures { result ≡ cache_size self.now }
    {
        self.size
    }

    /// Whether a buffer is the hand's own, cached or not. Looks at each cached item if the hand's flag of it isn't set.
    pub fn owns(&self, b: u32) -> bool
        ensures { IsTrue result ↔ (holds T.numbers b (view_of self.now).party ≡ 1) }
    {
        let spare = match &self.hand {
            Some(cache_hand) => cache_hand.has_spare(b),
            None => unreachable!(),
        };
        if spare {
            return true;
        }
        self.cache.one_carries(b)
    }

    /// The free ring that the cache is in front of.
    pub fn ring(&self) -> usize
        ensures { result ≡ ring_of self.now }
    {
        self.ring
    }
}
