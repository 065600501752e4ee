//! A cache of any items: a list, whose items move through bursts. And what it asks of its free ring.
ghost use Rattle.std.specs.Prelude.{◌≡◌, ◌+◌, ◌-◌, ◌<◌, ◌≤◌, ◌++◌, [], length, take, drop, reverse, true, IfOk, IfErr};
ghost use Rattle.ringcore_laws.specs.FreeRings.{AreSingle};
ghost use Rattle.fabric.specs.Hands.{IsHandOf, OnRing, view};
ghost use Rattle.fabric.specs.CacheHands.{IsCacheHandOf, Keeps, SameCacheHand, view_of_cache_hand};
ghost use Rattle.fabric.specs.Settles.{AreOwnBuffers};
ghost use Rattle.pool_laws.specs.Requests.{Fetches, Flushes, Sheds, Spills};
ghost use Rattle.pool_laws.specs.Hands.{IsFreeOf};

use crate::hands::carries;
use crate::list_moves::{part, push_all, serve};
use crate::ring_requests::{put_bulk, refill};
use crate::set_aside::{keep_back, whole_hand};
use crate::store::{Accepts, Gives, Store};
use burst::{Burst, Tagged};
use fabric::{CacheHand, Fabric, Hand, Stored};
use pool_laws::PoolFault;
use std::sync::Wait;

/// Moves the items after the first `k` of a cache into an empty list, the newest first; they are no longer set aside.
/// Never inlined, so that `give` is short enough to be.
#[inline(never)]
fn give_behind<T: Tagged, const N: usize, S: Stored<T>>(
    cache_hand: &mut CacheHand<T, S>,
    cache: &mut Burst<T, N>,
    k: usize,
    into: &mut Burst<T, N>,
)
    requires kept { Keeps T.numbers cache_hand.old cache.old }
    requires at_most { k ≤ length cache.old }
    requires empty { into.old ≡ [] }
    ensures same { SameCacheHand cache_hand.old cache_hand.new }
    ensures kept { Keeps T.numbers cache_hand.new cache.new }
    ensures left { cache.new ≡ take k cache.old }
    ensures moved { into.new ≡ reverse (drop k cache.old) }
{
    // for the proof: no list is longer than `N`
    let _fits = cache.len();
    cache.move_tail_reversed(k, into);
    cache_hand.restore(into);
}

/// Gets `n` items if the cache has fewer: all of them, the newest first, followed by the first of those that refill it.
/// At a refusal nothing moves.
pub(crate) fn fetch<T: Tagged, const N: usize, S: Stored<T>, R: Wait>(
    rt: &R,
    f: &Fabric<T, N, S>,
    hand: Hand<T, S>,
    ring: usize,
    size: usize,
    cache: &mut Burst<T, N>,
    n: usize,
    into: &mut Burst<T, N>,
) -> Result<Hand<T, S>, (Hand<T, S>, PoolFault)>
    requires hand { IsHandOf f.now hand }
    requires free { IsFreeOf f.now ring }
    requires short { length cache.old < n }
    requires at_most { n + size ≤ N }
    requires empty { into.old ≡ [] }
    ensures kept { IfOk result (IsHandOf f.now) }
    ensures same { IfErr result (λ e. IsHandOf f.now e.0 × (cache.new ≡ cache.old)) }
    ensures within { IfOk result (λ _. length cache.new ≤ size) }
    ensures exact { OnRing f.now ring
        (λ plan. Fetches T.numbers N ring plan size (view hand) n cache.old result into.new cache.new) }
    ensures own { AreOwnBuffers T.numbers (view hand) cache.old
        → IfOk result (λ h. AreOwnBuffers T.numbers (view h) (into.new ++ cache.new)) }
    ensures party { IfErr result (λ e. (view e.0).party ≡ (view hand).party) }
{
    let missing = n - cache.len();
    // the emptied cache is the list of the take: so what it keeps is already in it
    cache.move_tail_reversed(0, into);
    match refill(rt, f, hand, ring, missing, size, cache) {
        Ok(hand) => {
            serve(cache, missing, into);
            Ok(hand)
        }
        Err(refused) => {
            into.move_tail_reversed(0, cache);
            Err(refused)
        }
    }
}

/// One bulk put of the oldest `spare` items of a cache, tried until it succeeds or is refused. The others are in
/// `others` meanwhile, which is empty before and after.
fn spill<T: Tagged, const N: usize, S: Stored<T>, R: Wait>(
    rt: &R,
    f: &Fabric<T, N, S>,
    hand: Hand<T, S>,
    ring: usize,
    spare: usize,
    cache: &mut Burst<T, N>,
    others: &mut Burst<T, N>,
) -> Result<Hand<T, S>, Hand<T, S>>
    requires hand { IsHandOf f.now hand }
    requires free { IsFreeOf f.now ring }
    requires own { AreOwnBuffers T.numbers (view hand) cache.old }
    requires nonzero { 0 < spare }
    requires at_most { spare ≤ length cache.old }
    requires room { length cache.old ≤ N }
    requires empty { others.old ≡ [] }
    ensures kept { IfOk result (IsHandOf f.now) }
    ensures same { IfErr result (IsHandOf f.now) }
    ensures exact { OnRing f.now ring (λ plan. Spills T.numbers N ring plan (view hand) (take spare cache.old) result) }
    ensures own { IfOk result (λ h. AreOwnBuffers T.numbers (view h) cache.new) }
    ensures party { IfErr result (λ h. (view h).party ≡ (view hand).party) }
    ensures done { IfOk result (λ _. cache.new ≡ drop spare cache.old) }
    ensures back { IfErr result (λ _. cache.new ≡ cache.old) }
    ensures left { others.new ≡ [] }
{
    cache.move_tail_reversed(spare, others);
    // the same in both arms, after different items
    match put_bulk(rt, f, hand, ring, cache) {
        Ok(hand) => {
            others.move_tail_reversed(0, cache);
            Ok(hand)
        }
        Err(hand) => {
            others.move_tail_reversed(0, cache);
            Err(hand)
        }
    }
}

/// Puts all of a cache on the ring, the oldest first; at a refusal nothing moves.
pub(crate) fn empty<T: Tagged, const N: usize, S: Stored<T>, R: Wait>(
    rt: &R,
    f: &Fabric<T, N, S>,
    hand: Hand<T, S>,
    ring: usize,
    cache: &mut Burst<T, N>,
) -> Result<Hand<T, S>, Hand<T, S>>
    requires hand { IsHandOf f.now hand }
    requires free { IsFreeOf f.now ring }
    requires own { AreOwnBuffers T.numbers (view hand) cache.old }
    requires room { length cache.old ≤ N }
    ensures kept { IfOk result (λ h. IsHandOf f.now h × (cache.new ≡ [])) }
    ensures same { IfErr result (λ h. IsHandOf f.now h × (cache.new ≡ cache.old)) }
    ensures exact { OnRing f.now ring (λ plan. Flushes T.numbers N ring plan (view hand) cache.old result cache.new) }
    ensures party { IfErr result (λ h. (view h).party ≡ (view hand).party) }
{
    if cache.is_empty() {
        return Ok(hand);
    }
    let answer = put_bulk(rt, f, hand, ring, cache);
    // an arm for each, so that the proof has each answer separately
    match answer {
        Ok(hand) => Ok(hand),
        Err(hand) => Err(hand),
    }
}

/// Puts the oldest items of a cache on the ring until `size` are left. If that is refused, those after the first
/// `before` go into an empty list, in order.
pub(crate) fn shed<T: Tagged, const N: usize, S: Stored<T>, R: Wait>(
    rt: &R,
    f: &Fabric<T, N, S>,
    cache_hand: CacheHand<T, S>,
    ring: usize,
    size: usize,
    before: usize,
    cache: &mut Burst<T, N>,
    list: &mut Burst<T, N>,
) -> Result<CacheHand<T, S>, CacheHand<T, S>>
    requires cache_hand { IsCacheHandOf f.now cache_hand }
    requires free { IsFreeOf f.now ring }
    requires kept { Keeps T.numbers cache_hand cache.old }
    requires single { AreSingle T.numbers cache.old }
    requires length { size < length cache.old }
    requires room { length cache.old ≤ N }
    requires before { before ≤ length cache.old }
    requires empty { list.old ≡ [] }
    ensures cache_hand { IfOk result (λ k. IsCacheHandOf f.now k × Keeps T.numbers k cache.new) }
    ensures same { IfErr result (λ k. IsCacheHandOf f.now k × Keeps T.numbers k cache.new) }
    ensures single { AreSingle T.numbers cache.new }
    ensures exact { OnRing f.now ring
        (λ plan. Sheds T.numbers N ring plan size before (view_of_cache_hand cache_hand) cache.old
        result list.new cache.new) }
{
    let spare = cache.len() - size;
    let hand = whole_hand(cache_hand, cache);
    match spill(rt, f, hand, ring, spare, cache, list) {
        Ok(hand) => Ok(keep_back(hand, cache)),
        Err(hand) => {
            part(cache, before, list);
            Err(keep_back(hand, cache))
        }
    }
}

impl<T: Tagged, const N: usize> Store<T> for Burst<T, N> {
    ghost items = { λ b. b };

    ghost room = { λ _. N };

    ghost reach = { λ _ _. true };

    ghost aside = { true };

    #[inline(always)]
    fn len(&self) -> usize {
        Burst::len(self)
    }

    #[inline(always)]
    fn release<S: Stored<T>>(
        &self,
        from: &mut Option<CacheHand<T, S>>,
        to: &mut Option<Hand<T, S>>,
    ) {
        match from.take() {
            Some(cache_hand) => {
                *to = Some(cache_hand.into_hand(self));
            }
            None => unreachable!(),
        }
    }

    fn set_aside<S: Stored<T>>(&self, cache_hand: &mut CacheHand<T, S>) -> bool {
        cache_hand.set_aside(self)
    }

    fn one_carries(&self, b: u32) -> bool {
        for i in 0..Burst::len(self) {
            match self.get(i) {
                Some(item) => {
                    if carries(item, b) {
                        return true;
                    }
                }
                None => (),
            }
        }
        false
    }
}

impl<T: Tagged, const N: usize> Gives<T, Burst<T, N>> for Burst<T, N> {
    /// One item, as in most calls, is moved without a loop.
    #[inline]
    fn give<S: Stored<T>>(
        &mut self,
        cache_hand: &mut CacheHand<T, S>,
        n: usize,
        into: &mut Burst<T, N>,
    ) {
        let k = Burst::len(self) - n;
        if n != 1 {
            give_behind(cache_hand, self, k, into);
            return;
        }
        if let Some(item) = self.pop() {
            cache_hand.restore_one(&item);
            into.push(item);
        }
    }
}

impl<T: Tagged, const N: usize> Accepts<T, Burst<T, N>> for Burst<T, N> {
    #[inline(always)]
    fn admit<S: Stored<T>>(
        &mut self,
        cache_hand: &mut CacheHand<T, S>,
        list: &mut Burst<T, N>,
    ) -> bool {
        let may = cache_hand.set_aside(list);
        if may {
            push_all(self, list);
        }
        may
    }

    /// Never: the hand sets its buffers aside.
    #[inline(always)]
    fn has_any(&self, _list: &Burst<T, N>) -> bool {
        false
    }
}
