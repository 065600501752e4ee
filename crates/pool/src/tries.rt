//! Puts and takes of words that are tried once, for callers that may not wait: by the hand of a cache, on rings with
//! head/tail-sync sides. There a span is settled at once, so that no open span is left. The cache isn't changed.
ghost use Rattle.std.specs.Prelude.{◌≡◌, ◌<◌, ◌++◌, List, [], Some, drop, length};
ghost use Rattle.ringcore_laws.specs.Moves.{Owns};
ghost use Rattle.fabric.specs.Hands.{OnRing, rings_of};
ghost use Rattle.fabric.specs.CacheHands.{IsCacheHandOf, Keeps, view_of_cache_hand};
ghost use Rattle.fabric.specs.Settles.{AreOwnBuffers};
ghost use Rattle.pool_laws.specs.Beside.{IsPutByHts, IsTakenByHts, Receives, Sends, unsent_of};
ghost use Rattle.pool.specs.WordStacks.{words_in};
ghost use Rattle.pool.specs.Locals.{IsLocalOf, SameCache, SameRing, cache_of, hand_of};

use crate::hands::take_hand;
use crate::local::Local;
use crate::other_rings::{put_answered, take_answered};
use crate::set_aside::whole_hand;
use crate::store::{Accepts, Store};
use crate::word_stack::WordStack;
use burst::Word;
use fabric::{CacheHand, Fabric, StartFault, Stored, Words};
use geom::How;
use ringapi::{Moved, Refusal, try_put_own, try_take_slice};

/// Tries once to put words of a slice.
fn try_send_beside<T: Word, const N: usize, S: Stored<T>>(
    f: &Fabric<T, N, S>,
    cache_hand: CacheHand<T, S>,
    ring: usize,
    how: How,
    cache: &WordStack<T>,
    items: &[T],
) -> (CacheHand<T, S>, Result<Moved, Refusal>)
    requires cache_hand { IsCacheHandOf f.now cache_hand }
    requires ring { ring < length (rings_of f.now) }
    requires hts { OnRing f.now ring IsPutByHts }
    requires kept { Keeps T.numbers cache_hand [] }
    requires own { AreOwnBuffers T.numbers (view_of_cache_hand cache_hand) (words_in cache.now) }
    ensures cache_hand { IsCacheHandOf f.now result.0 × Keeps T.numbers result.0 [] }
    ensures own { Owns T.numbers (view_of_cache_hand result.0).party (words_in cache.now) }
    ensures exact { OnRing f.now ring (λ plan. Sends T.numbers how N ring plan (Some cache_hand) (Some result.0)
        (words_in cache.now) items.now result.1 (unsent_of result.1 items.now)) }
{
    let mut cache_hand = cache_hand;
    let mut list = Words { words: items };
    if !cache_hand.may_put(f, ring, &list) {
        return (cache_hand, Err(Refusal::NotYours));
    }
    if cache.has_any(&list) {
        return (cache_hand, Err(Refusal::NotYours));
    }
    let hand = whole_hand(cache_hand, cache);
    put_answered(try_put_own(f, hand, ring, how, &mut list), cache)
}

/// Tries once to take words to the front of a slice.
fn try_receive_beside<T: Word, const N: usize, S: Stored<T>>(
    f: &Fabric<T, N, S>,
    cache_hand: CacheHand<T, S>,
    ring: usize,
    how: How,
    cache: &WordStack<T>,
    into: &mut [T],
) -> (CacheHand<T, S>, Result<Moved, StartFault>)
    requires cache_hand { IsCacheHandOf f.now cache_hand }
    requires ring { ring < length (rings_of f.now) }
    requires hts { OnRing f.now ring IsTakenByHts }
    requires kept { Keeps T.numbers cache_hand [] }
    requires own { AreOwnBuffers T.numbers (view_of_cache_hand cache_hand) (words_in cache.now) }
    ensures cache_hand { IsCacheHandOf f.now result.0 × Keeps T.numbers result.0 [] }
    ensures own { Owns T.numbers (view_of_cache_hand result.0).party (words_in cache.now) }
    ensures exact { (shown : List T) × (into.new ≡ shown ++ drop (length shown) into.old)
        × OnRing f.now ring (λ plan. Receives T.numbers how N ring plan (Some cache_hand) (Some result.0)
        (length into.old) result.1 shown) }
{
    let hand = whole_hand(cache_hand, cache);
    take_answered(try_take_slice(f, hand, ring, how, into), cache)
}

impl<T: Word, const N: usize, S: Stored<T>> Local<T, N, S, WordStack<T>> {
    /// Tries once to put words of a slice on a ring of the fabric: by bulk all of them, by burst as many of its first
    /// ones as there is room for, and `Moved::count` says how many. The cache isn't changed. Requires: puts on this
    /// ring are head/tail-sync (`Fabric::mode`). At most four steps on words, and no memory.
    ///
    /// Errors, in the order of the tests: `NotYours` if the words carry buffers that aren't the hand's own or that are
    /// cached, before any step; `Start`: `BadCount` if the slice is empty; `Busy`; `NoRoom`; `Worn`; `Contended`. No
    /// word is put then.
    pub fn try_send_from_slice(
        &mut self,
        f: &Fabric<T, N, S>,
        ring: usize,
        how: How,
        items: &[T],
    ) -> Result<Moved, Refusal>
        requires local { IsLocalOf f.now self.old }
        requires ring { ring < length (rings_of f.now) }
        requires hts { OnRing f.now ring IsPutByHts }
        ensures local { IsLocalOf f.now self.new }
        ensures same { SameRing self.old self.new × SameCache self.old self.new }
        ensures exact { OnRing f.now ring (λ plan. Sends T.numbers how N ring plan (hand_of self.old)
            (hand_of self.new) (cache_of self.old) items.now result (unsent_of result items.now)) }
    {
        let cache_hand = take_hand(&mut self.hand);
        let (cache_hand, answer) = try_send_beside(f, cache_hand, ring, how, &self.cache, items);
        self.hand = Some(cache_hand);
        answer
    }

    /// Tries once to take words from a ring of the fabric: by bulk as many as a slice has places, by burst at most so
    /// many. They are at the front of the slice afterwards, and `Moved::count` says how many; the places after them are
    /// unchanged. The cache isn't changed. Requires: takes from this ring are head/tail-sync (`Fabric::mode`). At most
    /// four steps on words, and no memory.
    ///
    /// Errors, in the order of the tests: `BadCount` if the slice is empty or has more than `N` places; `Busy`;
    /// `NoRoom` if too few are queued; `Worn`; `Contended`. No word is taken then, and the slice is unchanged.
    pub fn try_receive_into_slice(
        &mut self,
        f: &Fabric<T, N, S>,
        ring: usize,
        how: How,
        into: &mut [T],
    ) -> Result<Moved, StartFault>
        requires local { IsLocalOf f.now self.old }
        requires ring { ring < length (rings_of f.now) }
        requires hts { OnRing f.now ring IsTakenByHts }
        ensures local { IsLocalOf f.now self.new }
        ensures same { SameRing self.old self.new × SameCache self.old self.new }
        ensures exact { (shown : List T) × (into.new ≡ shown ++ drop (length shown) into.old)
            × OnRing f.now ring (λ plan. Receives T.numbers how N ring plan (hand_of self.old) (hand_of self.new)
            (length into.old) result shown) }
    {
        let cache_hand = take_hand(&mut self.hand);
        let (cache_hand, answer) = try_receive_beside(f, cache_hand, ring, how, &self.cache, into);
        self.hand = Some(cache_hand);
        answer
    }
}
