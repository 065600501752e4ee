//! Puts, takes and counts on any ring of the fabric by a hand that sets the buffers of a cache aside, for any kind of
//! list: the cache isn't changed.
ghost use Rattle.std.specs.Prelude.{◌≡◌, ◌<◌, ◌≤◌, [], ℕ, Some, length};
ghost use Rattle.ringcore_laws.specs.Moves.{Owns};
ghost use Rattle.fabric_laws.specs.Changes.{loaded};
ghost use Rattle.fabric.specs.Counts.{CountsQueued};
ghost use Rattle.fabric.specs.Hands.{OnRing, rings_of};
ghost use Rattle.fabric.specs.CacheHands.{IsCacheHandOf, Keeps, view_of_cache_hand};
ghost use Rattle.fabric.specs.Settles.{AreOwnBuffers};
ghost use Rattle.pool.specs.Asides.{set_aside_of};
ghost use Rattle.ringapi.specs.Views.{by_burst};
ghost use Rattle.pool_laws.specs.Beside.{IsPutBeside, IsTakenBeside, PutOwns, Receives, Sends, TakeOwns, unsent_of};
ghost use Rattle.pool.specs.Locals.{IsLocalOf, SameCache, SameRing, cache_of, hand_of, view_of};
ghost use Rattle.pool.specs.Slices.{KeepsRoom, left_by};

use crate::hands::take_hand;
use crate::local::Local;
use crate::set_aside::{keep_back, whole_hand};
use crate::store::{Accepts, Store};
use burst::Tagged;
use fabric::{CacheHand, Fabric, PutItems, StartFault, Stored, TakeItems};
use geom::How;
use ringapi::{Moved, PutAnswer, Refusal, TakeAnswer, put_own, take_into};
use std::sync::Wait;

/// The answer of a put, beside the cache whose buffers the hand sets aside again.
pub(crate) fn put_answered<T: Tagged, const N: usize, S: Stored<T>, C: Store<T>>(
    answer: PutAnswer<'_, T, N, S>,
    cache: &C,
) -> (CacheHand<T, S>, Result<Moved, Refusal>)
    requires own { PutOwns T.numbers (C.items cache.now) answer }
    ensures kept { Keeps T.numbers result.0 (set_aside_of C.aside (C.items cache.now)) }
    ensures owned { Owns T.numbers (view_of_cache_hand result.0).party (C.items cache.now) }
    ensures same { IsPutBeside answer.entry result.0 result.1 }
{
    match answer {
        PutAnswer::Done(hand, moved) => (keep_back(hand, cache), Ok(moved)),
        PutAnswer::Refused(hand, refusal) => (keep_back(hand, cache), Err(refusal)),
        PutAnswer::Open(_, _) => unreachable!(),
    }
}

/// The answer of a take, in the same way.
pub(crate) fn take_answered<T: Tagged, const N: usize, S: Stored<T>, C: Store<T>>(
    answer: TakeAnswer<'_, T, N, S>,
    cache: &C,
) -> (CacheHand<T, S>, Result<Moved, StartFault>)
    requires own { TakeOwns T.numbers (C.items cache.now) answer }
    ensures kept { Keeps T.numbers result.0 (set_aside_of C.aside (C.items cache.now)) }
    ensures owned { Owns T.numbers (view_of_cache_hand result.0).party (C.items cache.now) }
    ensures same { IsTakenBeside answer.entry result.0 result.1 }
{
    match answer {
        TakeAnswer::Done(hand, moved) => (keep_back(hand, cache), Ok(moved)),
        TakeAnswer::Refused(hand, fault) => (keep_back(hand, cache), Err(fault)),
        TakeAnswer::Open(_, _) => unreachable!(),
    }
}

/// Puts as many items of a list as there is room for, from its front.
fn send_beside<T: Tagged, const N: usize, S: Stored<T>, I: PutItems<T>, C: Accepts<T, I>, R: Wait>(
    rt: &R,
    f: &Fabric<T, N, S>,
    cache_hand: CacheHand<T, S>,
    ring: usize,
    cache: &C,
    list: &mut I,
) -> (CacheHand<T, S>, Result<Moved, Refusal>)
    requires cache_hand { IsCacheHandOf f.now cache_hand }
    requires ring { ring < length (rings_of f.now) }
    requires kept { Keeps T.numbers cache_hand (set_aside_of C.aside (C.items cache.now)) }
    requires own { AreOwnBuffers T.numbers (view_of_cache_hand cache_hand) (C.items cache.now) }
    ensures cache_hand { IsCacheHandOf f.now result.0
        × Keeps T.numbers result.0 (set_aside_of C.aside (C.items cache.now)) }
    ensures owned { Owns T.numbers (view_of_cache_hand result.0).party (C.items cache.now) }
    ensures exact { OnRing f.now ring (λ plan. Sends T.numbers by_burst N ring plan (Some cache_hand) (Some result.0)
        (C.items cache.now) (I.items list.old) result.1 (unsent_of result.1 (I.items list.old))) }
    ensures list { I.items list.new ≡ left_by I.after result.1 (I.items list.old) }
{
    let mut cache_hand = cache_hand;
    if !cache_hand.may_put(f, ring, list) {
        return (cache_hand, Err(Refusal::NotYours));
    }
    if cache.has_any(list) {
        return (cache_hand, Err(Refusal::NotYours));
    }
    let hand = whole_hand(cache_hand, cache);
    put_answered(put_own(rt, f, hand, ring, How::Burst, list), cache)
}

/// Takes at most `n` items, as many as are queued, into an empty list.
fn receive_beside<T: Tagged, const N: usize, S: Stored<T>, I: TakeItems<T>, C: Store<T>, R: Wait>(
    rt: &R,
    f: &Fabric<T, N, S>,
    cache_hand: CacheHand<T, S>,
    ring: usize,
    n: usize,
    cache: &C,
    into: &mut I,
) -> (CacheHand<T, S>, Result<Moved, StartFault>)
    requires cache_hand { IsCacheHandOf f.now cache_hand }
    requires ring { ring < length (rings_of f.now) }
    requires kept { Keeps T.numbers cache_hand (set_aside_of C.aside (C.items cache.now)) }
    requires own { AreOwnBuffers T.numbers (view_of_cache_hand cache_hand) (C.items cache.now) }
    requires empty { I.items into.old ≡ [] }
    requires fits { (m : ℕ) → m ≤ n → m ≤ N → m ≤ I.room into.old }
    ensures cache_hand { IsCacheHandOf f.now result.0
        × Keeps T.numbers result.0 (set_aside_of C.aside (C.items cache.now)) }
    ensures owned { Owns T.numbers (view_of_cache_hand result.0).party (C.items cache.now) }
    ensures exact { OnRing f.now ring (λ plan. Receives T.numbers by_burst N ring plan (Some cache_hand)
        (Some result.0) n result.1 (I.items into.new)) }
    ensures beside { KeepsRoom I.beside into.old result.1 into.new }
{
    let hand = whole_hand(cache_hand, cache);
    take_answered(take_into(rt, f, hand, ring, n, How::Burst, into), cache)
}

/// How many items are queued on a ring.
fn count_beside<T: Tagged, const N: usize, S: Stored<T>, C: Store<T>>(
    f: &Fabric<T, N, S>,
    cache_hand: CacheHand<T, S>,
    ring: usize,
    cache: &C,
) -> (CacheHand<T, S>, u64)
    requires cache_hand { IsCacheHandOf f.now cache_hand }
    requires ring { ring < length (rings_of f.now) }
    requires kept { Keeps T.numbers cache_hand (set_aside_of C.aside (C.items cache.now)) }
    requires own { AreOwnBuffers T.numbers (view_of_cache_hand cache_hand) (C.items cache.now) }
    ensures cache_hand { IsCacheHandOf f.now result.0
        × Keeps T.numbers result.0 (set_aside_of C.aside (C.items cache.now)) }
    ensures owned { Owns T.numbers (view_of_cache_hand result.0).party (C.items cache.now) }
    ensures view { view_of_cache_hand result.0 ≡ loaded (loaded (view_of_cache_hand cache_hand)) }
    ensures found { OnRing f.now ring
        (λ plan. CountsQueued T.numbers ring plan (view_of_cache_hand cache_hand) result.1) }
{
    let hand = whole_hand(cache_hand, cache);
    let (hand, count) = f.count(hand, ring);
    (keep_back(hand, cache), count)
}

impl<T: Tagged, const N: usize, S: Stored<T>, C: Store<T> + Drop> Local<T, N, S, C> {
    /// Puts as many items of a list as there is room for on a ring of the fabric, as `send_from` and `send_from_slice`
    /// say.
    pub(crate) fn send<I: PutItems<T>, R: Wait>(
        &mut self,
        rt: &R,
        f: &Fabric<T, N, S>,
        ring: usize,
        list: &mut I,
    ) -> Result<Moved, Refusal>
    where
        C: Accepts<T, I>,
        requires local { IsLocalOf f.now self.old }
        requires ring { ring < length (rings_of f.now) }
        ensures local { IsLocalOf f.now self.new }
        ensures same { SameRing self.old self.new × SameCache self.old self.new }
        ensures exact { OnRing f.now ring (λ plan. Sends T.numbers by_burst N ring plan (hand_of self.old)
            (hand_of self.new) (cache_of self.old) (I.items list.old) result (unsent_of result (I.items list.old))) }
        ensures list { I.items list.new ≡ left_by I.after result (I.items list.old) }
    {
        let cache_hand = take_hand(&mut self.hand);
        let (cache_hand, answer) = send_beside(rt, f, cache_hand, ring, &self.cache, list);
        self.hand = Some(cache_hand);
        answer
    }

    /// Takes at most `n` items from a ring of the fabric into an empty list, as `receive_into` and
    /// `receive_into_slice` say.
    pub(crate) fn receive<I: TakeItems<T>, R: Wait>(
        &mut self,
        rt: &R,
        f: &Fabric<T, N, S>,
        ring: usize,
        n: usize,
        into: &mut I,
    ) -> Result<Moved, StartFault>
        requires local { IsLocalOf f.now self.old }
        requires ring { ring < length (rings_of f.now) }
        requires empty { I.items into.old ≡ [] }
        requires fits { (m : ℕ) → m ≤ n → m ≤ N → m ≤ I.room into.old }
        ensures local { IsLocalOf f.now self.new }
        ensures same { SameRing self.old self.new × SameCache self.old self.new }
        ensures exact { OnRing f.now ring (λ plan. Receives T.numbers by_burst N ring plan (hand_of self.old)
            (hand_of self.new) n result (I.items into.new)) }
        ensures beside { KeepsRoom I.beside into.old result into.new }
    {
        let cache_hand = take_hand(&mut self.hand);
        let (cache_hand, answer) = receive_beside(rt, f, cache_hand, ring, n, &self.cache, into);
        self.hand = Some(cache_hand);
        answer
    }

    /// How many items are queued on a ring of the fabric. Two loads, which aren't counted among the steps. No memory.
    pub fn count(&mut self, f: &Fabric<T, N, S>, ring: usize) -> u64
        requires local { IsLocalOf f.now self.old }
        requires ring { ring < length (rings_of f.now) }
        ensures local { IsLocalOf f.now self.new }
        ensures same { SameRing self.old self.new × SameCache self.old self.new }
        ensures view { view_of self.new ≡ loaded (loaded (view_of self.old)) }
        ensures found { OnRing f.now ring (λ plan. CountsQueued T.numbers ring plan (view_of self.old) result) }
    {
        let cache_hand = take_hand(&mut self.hand);
        let (cache_hand, count) = count_beside(f, cache_hand, ring, &self.cache);
        self.hand = Some(cache_hand);
        count
    }
}
