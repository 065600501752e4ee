//! The exports for puts, takes and looks at rings.
ghost use Rattle.std.specs.Prelude.{◌≡◌, ◌≤◌, [], ◌∷◌, false, length};
ghost use Rattle.geom.specs.declared.plan.How.TheVariants.{Bulk};
ghost use Rattle.capi.specs.Calls.{how_of, word_of};
ghost use Rattle.capi.specs.Codes.{Answers};
ghost use Rattle.capi.specs.HandCalls.{AtHand};
ghost use Rattle.capi.specs.MemberCalls.{LooksAt, PutsWords, TakesWords};
ghost use Rattle.capi.specs.RingCalls.{room_side};

use crate::handle::Handle;
use crate::keeping::{borrow, with_object};
use crate::object::Object;
use crate::rings::{
    Fault, MAX_WORDS, Word64, answer, how, look, put_word, put_words, side_of, take_word,
    take_words,
};
use std::alloc::Global;

/// Puts at most `MAX_WORDS` words, or those of a `long` call.
#[inline(always)]
fn put(alloc: Global, h: &mut Handle, ring: usize, words: &[Word64], bulk: bool, long: bool) -> i64
    requires short { long ≡ false → length words.now ≤ MAX_WORDS }
    ensures { Answers result (AtHand h.old.value h.new.value (PutsWords ring (how_of bulk) words.now)) }
{
    with_object!(alloc, h, Hand(member) => put_words(member, ring, words, how(bulk), long))
}

/// A long put, apart from the usual ones, which then save fewer registers.
#[inline(never)]
fn put_long(alloc: Global, h: &mut Handle, ring: usize, words: &[Word64], bulk: bool) -> i64
    ensures { Answers result (AtHand h.old.value h.new.value (PutsWords ring (how_of bulk) words.now)) }
{
    put(alloc, h, ring, words, bulk, true)
}

/// Puts words on a ring.
#[unsafe(no_mangle)]
pub extern "C" fn hkx_ring_put(
    alloc: Global,
    h: &mut Handle,
    ring: usize,
    words: &[Word64],
    bulk: bool,
) -> i64
    ensures { Answers result (AtHand h.old.value h.new.value (PutsWords ring (how_of bulk) words.now)) }
{
    if words.len() > MAX_WORDS {
        return put_long(alloc, h, ring, words, bulk);
    }
    put(alloc, h, ring, words, bulk, false)
}

/// Takes words to an array of at most `MAX_WORDS` places, or by a `long` call.
#[inline(always)]
fn take(
    alloc: Global,
    h: &mut Handle,
    ring: usize,
    words: &mut [Word64],
    bulk: bool,
    long: bool,
) -> i64
    requires short { long ≡ false → length words.old ≤ MAX_WORDS }
    ensures { Answers result
        (AtHand h.old.value h.new.value (TakesWords ring (how_of bulk) words.old words.new)) }
{
    with_object!(alloc, h, Hand(member) => take_words(member, ring, words, how(bulk), long))
}

/// A long take, apart from the usual ones.
#[inline(never)]
fn take_long(alloc: Global, h: &mut Handle, ring: usize, words: &mut [Word64], bulk: bool) -> i64
    ensures { Answers result
        (AtHand h.old.value h.new.value (TakesWords ring (how_of bulk) words.old words.new)) }
{
    take(alloc, h, ring, words, bulk, true)
}

/// Takes words from a ring to the front of an array.
#[unsafe(no_mangle)]
pub extern "C" fn hkx_ring_take(
    alloc: Global,
    h: &mut Handle,
    ring: usize,
    words: &mut [Word64],
    bulk: bool,
) -> i64
    ensures { Answers result
        (AtHand h.old.value h.new.value (TakesWords ring (how_of bulk) words.old words.new)) }
{
    if words.len() > MAX_WORDS {
        return take_long(alloc, h, ring, words, bulk);
    }
    take(alloc, h, ring, words, bulk, false)
}

/// How many words are queued on a ring, or how many more there is room for, with a span open or without.
#[unsafe(no_mangle)]
pub extern "C" fn hkx_ring_room(alloc: Global, h: &mut Handle, ring: usize, queued: bool) -> i64
    ensures { Answers result (AtHand h.old.value h.new.value (LooksAt ring (room_side queued))) }
{
    with_object!(alloc, h, Hand(member) => look(member, ring, side_of(queued)))
}

/// Puts a word on a ring.
#[unsafe(no_mangle)]
pub extern "C" fn hkx_ring_put_one(alloc: Global, h: &mut Handle, ring: usize, bits: u64) -> i64
    ensures { Answers result (AtHand h.old.value h.new.value (PutsWords ring Bulk (word_of bits ∷ []))) }
{
    with_object!(alloc, h, Hand(member) => put_word(member, ring, Word64 { bits }))
}

/// Takes a word from a ring.
#[unsafe(no_mangle)]
pub extern "C" fn hkx_ring_take_one(
    alloc: Global,
    h: &mut Handle,
    ring: usize,
    word: &mut Word64,
) -> i64
    ensures { Answers result
        (AtHand h.old.value h.new.value (TakesWords ring Bulk (word.old ∷ []) (word.new ∷ []))) }
{
    with_object!(alloc, h, Hand(member) => take_word(member, ring, word))
}
