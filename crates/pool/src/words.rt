//! A cache of plain words: a stack over an array. Words are copied into slices and out of them. And what it asks of its
//! free ring.
ghost use Rattle.std.specs.Prelude.{◌≡◌, ◌+◌, ◌-◌, ◌<◌, ◌≤◌, ◌++◌, ◌⊎◌, [], length, nat_le, take, drop, reverse, true, false, IfOk, IfErr};
ghost use Rattle.ringcore_laws.specs.FreeRings.{AreSingle};
ghost use Rattle.ringcore_laws.specs.Moves.{Owns};
ghost use Rattle.fabric.specs.Hands.{IsHandOf, OnRing, view};
ghost use Rattle.ringapi.specs.Holdings.{HasMore};
ghost use Rattle.fabric.specs.CacheHands.{IsCacheHandOf, Keeps, view_of_cache_hand};
ghost use Rattle.fabric.specs.Settles.{AreOwnBuffers};
ghost use Rattle.pool_laws.specs.Requests.{Fetches, Flushes, Refills, Sheds, Spills};
ghost use Rattle.pool_laws.specs.Hands.{IsFreeOf};
ghost use Rattle.pool.specs.Slices.{filled, undone};
ghost use Rattle.pool.specs.Spares.{EachIsSpare, SomeIsNotSpare};
ghost use Rattle.pool.specs.Stacks.{added, room_of, stacked};
ghost use Rattle.pool.specs.WordStacks.{buffers_in, room_in, words_in};

use crate::places::{has_any, place_all};
use crate::ring_requests::{put_bulk, refill};
use crate::set_aside::{keep_back, whole_hand};
use crate::stack::Stack;
use crate::store::{Accepts, Gives, Store};
use crate::word_stack::WordStack;
use burst::Word;
use fabric::{CacheHand, Fabric, Front, Hand, Stored, Words};
use pool_laws::PoolFault;
use std::sync::Wait;

/// Whether each word of a slice carries one buffer, which is spare.
#[inline]
fn are_spare<T: Word, S: Stored<T>>(cache_hand: &CacheHand<T, S>, items: &[T]) -> bool
    ensures single { result ≡ true → AreSingle T.numbers items.now }
    ensures spare { result ≡ true → EachIsSpare T.numbers cache_hand.now items.now }
    ensures other { result ≡ false
        → SomeIsNotSpare T.numbers cache_hand.now items.now ⊎ (AreSingle T.numbers items.now → ⊥) }
{
    for i in 0..items.len() {
        let Some(b) = items[i].single_tag() else {
            return false;
        };
        if !cache_hand.has_spare(b) {
            return false;
        }
    }
    true
}

/// Takes the `missing` words that a cache lacks, and `size` more, to the front of a slice; if the ring has fewer than
/// that, the missing ones alone. Returns the hand, or why not, and how many were taken.
fn refill_slice<T: Word, const N: usize, S: Stored<T>, R: Wait>(
    rt: &R,
    f: &Fabric<T, N, S>,
    hand: Hand<T, S>,
    ring: usize,
    missing: usize,
    size: usize,
    into: &mut [T],
) -> (Result<Hand<T, S>, (Hand<T, S>, PoolFault)>, usize)
    requires hand { IsHandOf f.now hand }
    requires free { IsFreeOf f.now ring }
    requires nonzero { 0 < missing }
    requires at_most { missing + size ≤ N }
    requires fits { missing + size ≤ length into.old }
    ensures long { length into.new ≡ length into.old }
    ensures count { result.1 ≤ length into.new }
    ensures kept { IfOk result.0 (IsHandOf f.now) }
    ensures back { IfErr result.0 (λ e. IsHandOf f.now e.0 × (result.1 ≡ 0)) }
    ensures exact { OnRing f.now ring (λ plan. Refills T.numbers N ring plan size (view hand) missing result.0
        (take result.1 into.new)) }
    ensures enough { IfOk result.0 (λ _. missing ≤ result.1) }
    ensures length { IfOk result.0 (λ _. result.1 ≤ missing + size) }
    ensures more { IfOk result.0
        (λ h. HasMore T.numbers (view hand).party (take result.1 into.new) (view h).party) }
    ensures single { IfOk result.0 (λ _. AreSingle T.numbers (take result.1 into.new)) }
    ensures same { IfErr result.0 (λ e. (view e.0).party ≡ (view hand).party) }
{
    let mut front = Front {
        words: into,
        count: 0,
    };
    let answer = refill(rt, f, hand, ring, missing, size, &mut front);
    let taken = front.count;
    (answer, taken)
}

/// `refill_slice` into the places after the words of a cache.
fn refill_stack<T: Word, const N: usize, S: Stored<T>, R: Wait>(
    rt: &R,
    f: &Fabric<T, N, S>,
    hand: Hand<T, S>,
    ring: usize,
    missing: usize,
    size: usize,
    cache: &mut Stack<T>,
) -> Result<Hand<T, S>, (Hand<T, S>, PoolFault)>
    requires hand { IsHandOf f.now hand }
    requires free { IsFreeOf f.now ring }
    requires nonzero { 0 < missing }
    requires at_most { missing + size ≤ N }
    requires room { length (stacked cache.old) + (missing + size) ≤ room_of cache.old }
    ensures room { room_of cache.new ≡ room_of cache.old }
    ensures pushed { stacked cache.new ≡ stacked cache.old ++ added (stacked cache.old) (stacked cache.new) }
    ensures kept { IfOk result (IsHandOf f.now) }
    ensures back { IfErr result (λ e. IsHandOf f.now e.0 × (stacked cache.new ≡ stacked cache.old)) }
    ensures exact { OnRing f.now ring (λ plan. Refills T.numbers N ring plan size (view hand) missing result
        (added (stacked cache.old) (stacked cache.new))) }
    ensures enough { IfOk result (λ _. missing ≤ length (added (stacked cache.old) (stacked cache.new))) }
    ensures length { IfOk result (λ _. length (added (stacked cache.old) (stacked cache.new)) ≤ missing + size) }
    ensures more { IfOk result (λ h. HasMore T.numbers (view hand).party
        (added (stacked cache.old) (stacked cache.new)) (view h).party) }
    ensures single { IfOk result (λ _. AreSingle T.numbers (added (stacked cache.old) (stacked cache.new))) }
    ensures same { IfErr result (λ e. (view e.0).party ≡ (view hand).party) }
{
    let count = cache.count;
    let end = count + (missing + size);
    let (answer, taken) = refill_slice(
        rt,
        f,
        hand,
        ring,
        missing,
        size,
        &mut cache.places.as_mut_slice()[count..end],
    );
    cache.count = count + taken;
    answer
}

/// Gets words into a slice if a stack has too few: all of them, the newest first, followed by the first of those that
/// refill it. At a refusal nothing moves.
fn fetch_words<T: Word, const N: usize, S: Stored<T>, R: Wait>(
    rt: &R,
    f: &Fabric<T, N, S>,
    hand: Hand<T, S>,
    ring: usize,
    size: usize,
    cache: &mut Stack<T>,
    into: &mut [T],
) -> Result<Hand<T, S>, (Hand<T, S>, PoolFault)>
    requires hand { IsHandOf f.now hand }
    requires free { IsFreeOf f.now ring }
    requires short { length (stacked cache.old) < length into.old }
    requires at_most { length into.old + size ≤ N }
    requires room { length into.old + size ≤ room_of cache.old }
    ensures room { room_of cache.new ≡ room_of cache.old }
    ensures kept { IfOk result (IsHandOf f.now) }
    ensures same { IfErr result (λ e. IsHandOf f.now e.0 × (stacked cache.new ≡ stacked cache.old)) }
    ensures back { IfErr result (λ _. into.new ≡ into.old) }
    ensures within { IfOk result (λ _. length (stacked cache.new) ≤ size) }
    ensures exact { OnRing f.now ring (λ plan. Fetches T.numbers N ring plan size (view hand) (length into.old)
        (stacked cache.old) result (filled result into.new) (stacked cache.new)) }
    ensures own { AreOwnBuffers T.numbers (view hand) (stacked cache.old)
        → IfOk result (λ h. AreOwnBuffers T.numbers (view h) (into.new ++ stacked cache.new)) }
    ensures party { IfErr result (λ e. (view e.0).party ≡ (view hand).party) }
{
    let before = cache.count;
    let missing = into.len() - before;
    match refill_stack(rt, f, hand, ring, missing, size, cache) {
        Ok(hand) => {
            cache.serve(before, into);
            Ok(hand)
        }
        Err(refused) => Err(refused),
    }
}

/// Fills a slice with words from a cache, which is refilled first. The words that refill it get their places.
#[inline(never)]
pub(crate) fn fetch<T: Word, const N: usize, S: Stored<T>, R: Wait>(
    rt: &R,
    f: &Fabric<T, N, S>,
    hand: Hand<T, S>,
    ring: usize,
    size: usize,
    cache: &mut WordStack<T>,
    into: &mut [T],
) -> Result<Hand<T, S>, (Hand<T, S>, PoolFault)>
    requires hand { IsHandOf f.now hand }
    requires free { IsFreeOf f.now ring }
    requires own { AreOwnBuffers T.numbers (view hand) (words_in cache.old) }
    requires buffers { (view hand).pool ≤ buffers_in cache.old }
    requires short { length (words_in cache.old) < length into.old }
    requires at_most { length into.old + size ≤ N }
    requires room { length into.old + size ≤ room_in cache.old }
    ensures room { room_in cache.new ≡ room_in cache.old }
    ensures buffers { buffers_in cache.new ≡ buffers_in cache.old }
    ensures kept { IfOk result (IsHandOf f.now) }
    ensures same { IfErr result (λ e. IsHandOf f.now e.0 × (words_in cache.new ≡ words_in cache.old)) }
    ensures back { IfErr result (λ _. into.new ≡ into.old) }
    ensures within { IfOk result (λ _. length (words_in cache.new) ≤ size) }
    ensures exact { OnRing f.now ring (λ plan. Fetches T.numbers N ring plan size (view hand) (length into.old)
        (words_in cache.old) result (filled result into.new) (words_in cache.new)) }
    ensures own { IfOk result (λ h. AreOwnBuffers T.numbers (view h) (into.new ++ words_in cache.new)) }
    ensures party { IfErr result (λ e. (view e.0).party ≡ (view hand).party) }
{
    match fetch_words(rt, f, hand, ring, size, &mut cache.stack, into) {
        Ok(hand) => {
            place_all(cache.stack.as_slice(), cache.at.as_mut_slice());
            Ok(hand)
        }
        Err(refused) => Err(refused),
    }
}

/// One bulk put of the oldest `spare` words of a cache, tried until it succeeds or is refused. The others move to the
/// front afterwards.
fn spill<T: Word, const N: usize, S: Stored<T>, R: Wait>(
    rt: &R,
    f: &Fabric<T, N, S>,
    hand: Hand<T, S>,
    ring: usize,
    spare: usize,
    cache: &mut Stack<T>,
) -> Result<Hand<T, S>, Hand<T, S>>
    requires hand { IsHandOf f.now hand }
    requires free { IsFreeOf f.now ring }
    requires own { AreOwnBuffers T.numbers (view hand) (stacked cache.old) }
    requires nonzero { 0 < spare }
    requires at_most { spare ≤ length (stacked cache.old) }
    requires fits { length (stacked cache.old) ≤ N }
    ensures room { room_of cache.new ≡ room_of cache.old }
    ensures kept { IfOk result (IsHandOf f.now) }
    ensures same { IfErr result (IsHandOf f.now) }
    ensures exact { OnRing f.now ring
        (λ plan. Spills T.numbers N ring plan (view hand) (take spare (stacked cache.old)) result) }
    ensures own { IfOk result (λ h. AreOwnBuffers T.numbers (view h) (stacked cache.new)) }
    ensures party { IfErr result (λ h. (view h).party ≡ (view hand).party) }
    ensures done { IfOk result (λ _. stacked cache.new ≡ drop spare (stacked cache.old)) }
    ensures back { IfErr result (λ _. stacked cache.new ≡ stacked cache.old) }
{
    let mut oldest = Words {
        words: &cache.as_slice()[..spare],
    };
    match put_bulk(rt, f, hand, ring, &mut oldest) {
        Ok(hand) => {
            cache.drop_first(spare);
            Ok(hand)
        }
        Err(hand) => Err(hand),
    }
}

/// Puts all of a cache on the ring, the oldest first; at a refusal nothing moves.
pub(crate) fn empty<T: Word, const N: usize, S: Stored<T>, R: Wait>(
    rt: &R,
    f: &Fabric<T, N, S>,
    hand: Hand<T, S>,
    ring: usize,
    cache: &mut WordStack<T>,
) -> Result<Hand<T, S>, Hand<T, S>>
    requires hand { IsHandOf f.now hand }
    requires free { IsFreeOf f.now ring }
    requires own { AreOwnBuffers T.numbers (view hand) (words_in cache.old) }
    requires fits { length (words_in cache.old) ≤ N }
    ensures room { room_in cache.new ≡ room_in cache.old }
    ensures buffers { buffers_in cache.new ≡ buffers_in cache.old }
    ensures kept { IfOk result (λ h. IsHandOf f.now h × (words_in cache.new ≡ [])) }
    ensures same { IfErr result (λ h. IsHandOf f.now h × (words_in cache.new ≡ words_in cache.old)) }
    ensures exact { OnRing f.now ring (λ plan. Flushes T.numbers N ring plan (view hand) (words_in cache.old) result
        (words_in cache.new)) }
    ensures party { IfErr result (λ h. (view h).party ≡ (view hand).party) }
{
    if cache.stack.count == 0 {
        return Ok(hand);
    }
    let mut all = Words {
        words: cache.stack.as_slice(),
    };
    match put_bulk(rt, f, hand, ring, &mut all) {
        Ok(hand) => {
            cache.stack.cut(0);
            Ok(hand)
        }
        Err(hand) => Err(hand),
    }
}

/// Puts the oldest words of a cache on the ring until `size` are left. If that is refused, the words after the first
/// `before` are removed from the cache.
#[inline(never)]
pub(crate) fn shed<T: Word, const N: usize, S: Stored<T>, R: Wait>(
    rt: &R,
    f: &Fabric<T, N, S>,
    cache_hand: CacheHand<T, S>,
    ring: usize,
    size: usize,
    before: usize,
    cache: &mut WordStack<T>,
) -> Result<CacheHand<T, S>, CacheHand<T, S>>
    requires cache_hand { IsCacheHandOf f.now cache_hand }
    requires free { IsFreeOf f.now ring }
    requires kept { Keeps T.numbers cache_hand [] }
    requires own { AreOwnBuffers T.numbers (view_of_cache_hand cache_hand) (words_in cache.old) }
    requires buffers { (view_of_cache_hand cache_hand).pool ≤ buffers_in cache.old }
    requires length { size < length (words_in cache.old) }
    requires fits { length (words_in cache.old) ≤ N }
    requires before { before ≤ length (words_in cache.old) }
    ensures room { room_in cache.new ≡ room_in cache.old }
    ensures buffers { buffers_in cache.new ≡ buffers_in cache.old }
    ensures cache_hand { IfOk result (λ k. IsCacheHandOf f.now k × Keeps T.numbers k []) }
    ensures same { IfErr result (λ k. IsCacheHandOf f.now k × Keeps T.numbers k []) }
    ensures own { IfOk result (λ k. Owns T.numbers (view_of_cache_hand k).party (words_in cache.new)) }
    ensures owned { IfErr result (λ k. Owns T.numbers (view_of_cache_hand k).party (words_in cache.new)) }
    ensures single { AreSingle T.numbers (words_in cache.new) }
    ensures exact { OnRing f.now ring (λ plan. Sheds T.numbers N ring plan size before (view_of_cache_hand cache_hand)
        (words_in cache.old) result (undone result (drop before (words_in cache.old))) (words_in cache.new)) }
{
    let spare = cache.stack.count - size;
    let hand = whole_hand(cache_hand, cache);
    match spill(rt, f, hand, ring, spare, &mut cache.stack) {
        Ok(hand) => {
            place_all(cache.stack.as_slice(), cache.at.as_mut_slice());
            Ok(keep_back(hand, cache))
        }
        Err(hand) => {
            cache.stack.cut(before);
            Err(keep_back(hand, cache))
        }
    }
}

impl<T: Word> Store<T> for WordStack<T> {
    ghost items = { words_in };

    ghost room = { room_in };

    ghost reach = { λ s n. nat_le n (buffers_in s) };

    ghost aside = { false };

    #[inline(always)]
    fn len(&self) -> usize {
        self.stack.count
    }

    #[inline(always)]
    fn release<S: Stored<T>>(
        &self,
        from: &mut Option<CacheHand<T, S>>,
        to: &mut Option<Hand<T, S>>,
    ) {
        match from.take() {
            Some(cache_hand) => {
                *to = Some(cache_hand.into_hand(&Words { words: &[] }));
            }
            None => unreachable!(),
        }
    }

    /// Nothing is set aside.
    #[inline(always)]
    fn set_aside<S: Stored<T>>(&self, _cache_hand: &mut CacheHand<T, S>) -> bool {
        true
    }

    #[inline(always)]
    fn one_carries(&self, _b: u32) -> bool {
        false
    }
}

impl<'s, T: Word> Gives<T, Front<'s, T>> for WordStack<T> {
    #[inline(always)]
    fn give<S: Stored<T>>(
        &mut self,
        _cache_hand: &mut CacheHand<T, S>,
        n: usize,
        into: &mut Front<'s, T>,
    ) {
        self.pop_slice(&mut into.words[0..n]);
        into.count = n;
    }
}

impl<'s, T: Word> Accepts<T, Words<'s, T>> for WordStack<T> {
    #[inline(always)]
    fn admit<S: Stored<T>>(
        &mut self,
        cache_hand: &mut CacheHand<T, S>,
        list: &mut Words<'s, T>,
    ) -> bool {
        if !are_spare(cache_hand, list.words) {
            return false;
        }
        self.push_apart(list.words)
    }

    fn has_any(&self, list: &Words<'s, T>) -> bool {
        has_any(self.stack.as_slice(), self.at.as_slice(), list.words)
    }
}
