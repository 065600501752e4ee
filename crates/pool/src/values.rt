//! Gets and puts with a list by value: each moves all `N` places of it. The calls that borrow a list don't.
ghost use Rattle.std.specs.Prelude.{◌<◌, ◌≤◌, ◌++◌, length, IfOk};
ghost use Rattle.fabric.specs.Hands.{OnRing};
ghost use Rattle.fabric.specs.Settles.{AreOwnBuffers};
ghost use Rattle.pool_laws.specs.Calls.{GetsCached, PutsCached};
ghost use Rattle.pool.specs.Calls.{GetTells, PutBackTells, answer_of, given, handed_back};
ghost use Rattle.pool.specs.Locals.{HasSameHand, IsLocalOf, SameRing, cache_of, ring_of, cache_size, view_of};

use crate::local::Local;
use burst::{Burst, Tagged};
use fabric::{Fabric, Stored};
use pool_laws::PoolFault;
use std::sync::Wait;

impl<T: Tagged, const N: usize, S: Stored<T>> Local<T, N, S> {
    /// `get_into` with a list of its own.
    pub fn get<R: Wait>(
        &mut self,
        rt: &R,
        f: &Fabric<T, N, S>,
        n: usize,
    ) -> Result<Burst<T, N>, PoolFault>
        requires local { IsLocalOf f.now self.old }
        requires nonzero { 0 < n }
        requires at_most { n ≤ 64 }
        ensures local { IsLocalOf f.now self.new }
        ensures same { SameRing self.old self.new }
        ensures exact { OnRing f.now (ring_of self.old)
            (λ plan. GetTells T.numbers plan self.old self.new n result (given result)) }
        ensures own { IfOk result (λ items. AreOwnBuffers T.numbers (view_of self.new) (items ++ cache_of self.new)) }
    {
        let mut items = Burst::new();
        match self.get_into(rt, f, n, &mut items) {
            Ok(()) => Ok(items),
            Err(fault) => Err(fault),
        }
    }

    /// `put_from` with a list by value, which comes back at a refusal.
    pub fn put<R: Wait>(
        &mut self,
        rt: &R,
        f: &Fabric<T, N, S>,
        items: Burst<T, N>,
    ) -> Result<(), (Burst<T, N>, PoolFault)>
        requires local { IsLocalOf f.now self.old }
        requires at_most { length items ≤ 64 }
        ensures local { IsLocalOf f.now self.new }
        ensures same { SameRing self.old self.new }
        ensures exact { OnRing f.now (ring_of self.old)
            (λ plan. PutBackTells T.numbers plan self.old self.new items (answer_of result) (handed_back result)) }
    {
        let mut list = items;
        match self.put_from(rt, f, &mut list) {
            Ok(()) => Ok(()),
            Err(fault) => Err((list, fault)),
        }
    }

    /// `get_cached_into` with a list of its own.
    pub fn get_cached(&mut self, n: usize) -> Result<Burst<T, N>, PoolFault>
        ensures same { SameRing self.old self.new × HasSameHand self.old self.new }
        ensures exact { GetsCached n (cache_of self.old) result (given result) (cache_of self.new) }
        ensures own { IfOk result (λ items. AreOwnBuffers T.numbers (view_of self.new) (items ++ cache_of self.new)) }
    {
        let mut items = Burst::new();
        match self.get_cached_into(n, &mut items) {
            Ok(()) => Ok(items),
            Err(fault) => Err(fault),
        }
    }

    /// `put_cached_from` with a list by value, which comes back at a refusal.
    pub fn put_cached(&mut self, items: Burst<T, N>) -> Result<(), (Burst<T, N>, PoolFault)>
        ensures same { SameRing self.old self.new × HasSameHand self.old self.new }
        ensures exact { PutsCached T.numbers (view_of self.old) (cache_size self.old) (cache_of self.old) items
            (answer_of result) (handed_back result) (cache_of self.new) }
    {
        let mut list = items;
        match self.put_cached_from(&mut list) {
            Ok(()) => Ok(()),
            Err(fault) => Err((list, fault)),
        }
    }
}
