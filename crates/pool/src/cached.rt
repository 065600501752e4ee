//! Gets and puts on the cache alone, for any kind of list. They touch no ring.
ghost use Rattle.std.specs.Prelude.{◌≡◌, ◌≤◌, ◌++◌, [], length, IfOk, IfErr};
ghost use Rattle.fabric.specs.Settles.{AreOwnBuffers};
ghost use Rattle.pool_laws.specs.Calls.{GetsCached, PutsCached};
ghost use Rattle.pool.specs.Locals.{HasSameHand, SameRing, cache_of, cache_size, view_of};
ghost use Rattle.pool.specs.Slices.{put_from, undone};

use crate::local::Local;
use crate::set_aside::may_admit;
use crate::store::{Accepts, Gives, Store};
use burst::Tagged;
use fabric::{PutItems, Stored, TakeItems};
use pool_laws::PoolFault;

impl<T: Tagged, const N: usize, S: Stored<T>, C: Store<T> + Drop> Local<T, N, S, C> {
    /// Gets `n` items from the cache alone, as `get_cached_into` and `get_cached_into_slice` say.
    #[inline(always)]
    pub(crate) fn get_from_cache<I: TakeItems<T>>(
        &mut self,
        n: usize,
        into: &mut I,
    ) -> Result<(), PoolFault>
    where
        C: Gives<T, I>,
        requires empty { I.items into.old ≡ [] }
        requires fits { n ≤ length (cache_of self.old) → n ≤ I.room into.old }
        ensures same { SameRing self.old self.new × HasSameHand self.old self.new }
        ensures exact { GetsCached n (cache_of self.old) result (I.items into.new) (cache_of self.new) }
        ensures own { IfOk result
            (λ _. AreOwnBuffers T.numbers (view_of self.new) (I.items into.new ++ cache_of self.new)) }
        ensures beside { IfOk result (λ _. I.beside into.old into.new) }
        ensures back { IfErr result (λ _. into.new ≡ into.old) }
    {
        if self.cache.len() < n {
            return Err(PoolFault::Short);
        }
        match &mut self.hand {
            Some(cache_hand) => self.cache.give(cache_hand, n, into),
            None => unreachable!(),
        }
        Ok(())
    }

    /// Pushes a list onto the cache, as `put_cached_from` and `put_cached_from_slice` say.
    #[inline(always)]
    pub(crate) fn put_in_cache<I: PutItems<T>>(&mut self, list: &mut I) -> Result<(), PoolFault>
    where
        C: Accepts<T, I>,
        ensures same { SameRing self.old self.new × HasSameHand self.old self.new }
        ensures exact { PutsCached T.numbers (view_of self.old) (cache_size self.old) (cache_of self.old)
            (I.items list.old) result (undone result (I.items list.old)) (cache_of self.new) }
        ensures list { I.items list.new ≡ put_from I.left result (I.items list.old) }
    {
        let room = self.room();
        let cache_hand = match &mut self.hand {
            Some(cache_hand) => cache_hand,
            None => unreachable!(),
        };
        if list.len() > room {
            return if may_admit(cache_hand, &self.cache, list) {
                Err(PoolFault::CacheFull)
            } else {
                Err(PoolFault::NotYours)
            };
        }
        if !self.cache.admit(cache_hand, list) {
            return Err(PoolFault::NotYours);
        }
        Ok(())
    }
}
