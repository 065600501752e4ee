//! A hand and the cache whose buffers it sets aside.
ghost use Rattle.std.specs.Prelude.{◌≡◌, ◌++◌, true, false};
ghost use Rattle.ringcore_laws.specs.Moves.{Owns};
ghost use Rattle.fabric.specs.Hands.{view};
ghost use Rattle.fabric.specs.CacheHands.{IsCacheHandFor, Keeps, SameCacheHand, view_of_cache_hand};
ghost use Rattle.fabric.specs.Settles.{AreNotOwnBuffers, AreOwnBuffers};
ghost use Rattle.pool.specs.Asides.{set_aside_of};

use crate::store::{Accepts, Store};
use burst::Tagged;
use fabric::{CacheHand, Hand, PutItems, Stored};

/// The whole hand, for a call on a ring. Requires: it sets the buffers of this cache aside.
#[inline]
pub(crate) fn whole_hand<T: Tagged, S: Stored<T>, C: Store<T>>(
    cache_hand: CacheHand<T, S>,
    cache: &C,
) -> Hand<T, S>
    requires kept { Keeps T.numbers cache_hand (set_aside_of C.aside (C.items cache.now)) }
    ensures { IsCacheHandFor result cache_hand }
{
    let mut from = Some(cache_hand);
    let mut to = None;
    cache.release(&mut from, &mut to);
    match to {
        Some(hand) => hand,
        None => unreachable!(),
    }
}

/// The hand as one that sets the buffers of a cache aside. Requires: it may put them on a free ring.
#[inline(never)]
pub(crate) fn keep_back<T: Tagged, S: Stored<T>, C: Store<T>>(
    hand: Hand<T, S>,
    cache: &C,
) -> CacheHand<T, S>
    requires own { AreOwnBuffers T.numbers (view hand) (C.items cache.now) }
    ensures seat { IsCacheHandFor hand result }
    ensures kept { Keeps T.numbers result (set_aside_of C.aside (C.items cache.now)) }
    ensures own { Owns T.numbers (view_of_cache_hand result).party (C.items cache.now) }
{
    let mut cache_hand = hand.into_cache_hand();
    if !cache.set_aside(&mut cache_hand) {
        unreachable!();
    }
    cache_hand
}

/// Whether the hand may put the items of a list and those of its cache together on a free ring. Nothing changes.
#[inline(never)]
pub(crate) fn may_admit<T: Tagged, S: Stored<T>, I: PutItems<T>, C: Accepts<T, I>>(
    cache_hand: &mut CacheHand<T, S>,
    cache: &C,
    list: &I,
) -> bool
    requires kept { Keeps T.numbers cache_hand.old (set_aside_of C.aside (C.items cache.now)) }
    requires own { AreOwnBuffers T.numbers (view_of_cache_hand cache_hand.old) (C.items cache.now) }
    ensures same { SameCacheHand cache_hand.old cache_hand.new }
    ensures kept { Keeps T.numbers cache_hand.new (set_aside_of C.aside (C.items cache.now)) }
    ensures yours { result ≡ true → AreOwnBuffers T.numbers (view_of_cache_hand cache_hand.old)
        (C.items cache.now ++ I.items list.now) }
    ensures other { result ≡ false → AreNotOwnBuffers T.numbers (view_of_cache_hand cache_hand.old)
        (C.items cache.now ++ I.items list.now) }
{
    if !cache_hand.set_aside(list) {
        return false;
    }
    cache_hand.restore(list);
    !cache.has_any(list)
}
