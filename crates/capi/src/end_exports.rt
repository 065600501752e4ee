//! The exports for ends.
ghost use Rattle.std.specs.Prelude.{◌≡◌, [], ◌∷◌, IfNone, IfSome};
ghost use Rattle.capi.specs.Calls.{word_of};
ghost use Rattle.capi.specs.Codes.{Answers};
ghost use Rattle.capi.specs.EndCalls.{EndHolds, EndOpens, EndPuts, EndReleases, EndTakes};
ghost use Rattle.capi.specs.HandCalls.{AtHand};
ghost use Rattle.capi.specs.RingCalls.{room_side};

use crate::handle::Handle;
use crate::keeping::{borrow, try_with_object, with_object};
use crate::object::Object;
use crate::rings::{
    Fault, Word64, answer, end_put, end_take, hold_end, is_put_recent, is_take_recent, open_end,
    put_on_held, put_when_open, release_end, side_of, take_on_held, take_when_open,
};
use std::alloc::Global;

/// Opens an end of a hand on a ring: one that takes, or one that puts.
#[unsafe(no_mangle)]
pub extern "C" fn hkx_end_open(alloc: Global, h: &mut Handle, ring: usize, takes: bool) -> i64
    ensures { Answers result (AtHand h.old.value h.new.value (EndOpens (room_side takes) ring)) }
{
    with_object!(alloc, h, Hand(member) => open_end(member, side_of(takes), ring))
}

/// Lets an end hold its side from its next word on, with at most so many positions at a time.
#[unsafe(no_mangle)]
pub extern "C" fn hkx_end_hold(alloc: Global, h: &mut Handle, most: usize, takes: bool) -> i64
    ensures { Answers result (AtHand h.old.value h.new.value (EndHolds (room_side takes) most)) }
{
    with_object!(alloc, h, Hand(member) => hold_end(member, side_of(takes), most))
}

/// Gives up the side that an end holds, and closes the end, or leaves it open.
#[unsafe(no_mangle)]
pub extern "C" fn hkx_end_release(alloc: Global, h: &mut Handle, takes: bool, closes: bool) -> i64
    ensures { Answers result (AtHand h.old.value h.new.value (EndReleases (room_side takes) closes)) }
{
    with_object!(alloc, h, Hand(member) => release_end(member, side_of(takes), closes))
}

/// What a look at the hand of a handle says: `false` if it has none.
macro_rules! of_hand {
    ($alloc:ident, $h:ident, $member:ident => $call:expr) => {{
        let Some(slot) = borrow($alloc, $h) else {
            return false;
        };
        let is = match &*slot {
            Some(Object::Hand($member)) => $call,
            _ => false,
        };
        *$h = Handle::of(slot);
        is
    }};
}

/// Whether the next put by the hand's end would be tried at once. Both functions below are right for it: this chooses
/// the one with fewer steps.
#[inline(always)]
fn puts_at_once(alloc: Global, h: &mut Handle) -> bool
    ensures { h.new.value ≡ h.old.value }
{
    of_hand!(alloc, h, member => is_put_recent(member))
}

/// Whether the next take by the hand's end would be tried at once.
#[inline(always)]
fn takes_at_once(alloc: Global, h: &mut Handle) -> bool
    ensures { h.new.value ≡ h.old.value }
{
    of_hand!(alloc, h, member => is_take_recent(member))
}

/// Puts a word by the hand's end, if that holds its side. At `None` nothing was done.
#[inline(always)]
fn try_put_held(alloc: Global, h: &mut Handle, bits: u64) -> Option<i64>
    ensures done { IfSome result
        (λ code. Answers code (AtHand h.old.value h.new.value (EndPuts (word_of bits)))) }
    ensures none { IfNone result (h.new.value ≡ h.old.value) }
{
    try_with_object!(alloc, h, Hand(member) => put_on_held(member, Word64 { bits }))
}

/// Puts a word by the hand's end, if that doesn't hold its side. At `None` nothing was done.
#[inline(always)]
fn try_put(alloc: Global, h: &mut Handle, bits: u64, looks: bool) -> Option<i64>
    ensures done { IfSome result
        (λ code. Answers code (AtHand h.old.value h.new.value (EndPuts (word_of bits)))) }
    ensures none { IfNone result (h.new.value ≡ h.old.value) }
{
    try_with_object!(alloc, h, Hand(member) => put_when_open(member, Word64 { bits }, looks))
}

/// Takes a word by the hand's end, if that holds its side. At `None` nothing was done.
#[inline(always)]
fn try_take_held(alloc: Global, h: &mut Handle, word: &mut Word64) -> Option<i64>
    ensures done { IfSome result
        (λ code. Answers code (AtHand h.old.value h.new.value (EndTakes (word.old ∷ []) (word.new ∷ [])))) }
    ensures none { IfNone result ((h.new.value ≡ h.old.value) × (word.new ≡ word.old)) }
{
    try_with_object!(alloc, h, Hand(member) => take_on_held(member, word))
}

/// Takes a word by the hand's end, if that doesn't hold its side. At `None` nothing was done.
#[inline(always)]
fn try_take(alloc: Global, h: &mut Handle, word: &mut Word64, looks: bool) -> Option<i64>
    ensures done { IfSome result
        (λ code. Answers code (AtHand h.old.value h.new.value (EndTakes (word.old ∷ []) (word.new ∷ [])))) }
    ensures none { IfNone result ((h.new.value ≡ h.old.value) × (word.new ≡ word.old)) }
{
    try_with_object!(alloc, h, Hand(member) => take_when_open(member, word, looks))
}

/// Any put of a word.
#[inline(never)]
fn put_rarely(alloc: Global, h: &mut Handle, bits: u64) -> i64
    ensures { Answers result (AtHand h.old.value h.new.value (EndPuts (word_of bits))) }
{
    with_object!(alloc, h, Hand(member) => end_put(member, Word64 { bits }))
}

/// Any take of a word.
#[inline(never)]
fn take_rarely(alloc: Global, h: &mut Handle, word: &mut Word64) -> i64
    ensures { Answers result (AtHand h.old.value h.new.value (EndTakes (word.old ∷ []) (word.new ∷ []))) }
{
    with_object!(alloc, h, Hand(member) => end_take(member, word))
}

/// A put of a word that begins with a look, on a side that isn't held. Each kind of put is a function of its own, so
/// that none saves registers that only another one uses.
#[inline(never)]
fn put_by_look(alloc: Global, h: &mut Handle, bits: u64) -> i64
    ensures { Answers result (AtHand h.old.value h.new.value (EndPuts (word_of bits))) }
{
    match try_put(alloc, h, bits, true) {
        Some(code) => code,
        None => put_rarely(alloc, h, bits),
    }
}

/// A put of a word that is tried at once.
#[inline(never)]
fn put_at_once(alloc: Global, h: &mut Handle, bits: u64) -> i64
    ensures { Answers result (AtHand h.old.value h.new.value (EndPuts (word_of bits))) }
{
    match try_put(alloc, h, bits, false) {
        Some(code) => code,
        None => put_rarely(alloc, h, bits),
    }
}

/// A take of a word that begins with a look, from a side that isn't held.
#[inline(never)]
fn take_by_look(alloc: Global, h: &mut Handle, word: &mut Word64) -> i64
    ensures { Answers result (AtHand h.old.value h.new.value (EndTakes (word.old ∷ []) (word.new ∷ []))) }
{
    match try_take(alloc, h, word, true) {
        Some(code) => code,
        None => take_rarely(alloc, h, word),
    }
}

/// A take of a word that is tried at once.
#[inline(never)]
fn take_at_once(alloc: Global, h: &mut Handle, word: &mut Word64) -> i64
    ensures { Answers result (AtHand h.old.value h.new.value (EndTakes (word.old ∷ []) (word.new ∷ []))) }
{
    match try_take(alloc, h, word, false) {
        Some(code) => code,
        None => take_rarely(alloc, h, word),
    }
}

/// Puts a word by the hand's end.
#[unsafe(no_mangle)]
pub extern "C" fn hkx_end_put(alloc: Global, h: &mut Handle, bits: u64) -> i64
    ensures { Answers result (AtHand h.old.value h.new.value (EndPuts (word_of bits))) }
{
    match try_put_held(alloc, h, bits) {
        Some(code) => return code,
        None => (),
    }
    if puts_at_once(alloc, h) {
        put_at_once(alloc, h, bits)
    } else {
        put_by_look(alloc, h, bits)
    }
}

/// Takes a word by the hand's end.
#[unsafe(no_mangle)]
pub extern "C" fn hkx_end_take(alloc: Global, h: &mut Handle, word: &mut Word64) -> i64
    ensures { Answers result (AtHand h.old.value h.new.value (EndTakes (word.old ∷ []) (word.new ∷ []))) }
{
    match try_take_held(alloc, h, word) {
        Some(code) => return code,
        None => (),
    }
    if takes_at_once(alloc, h) {
        take_at_once(alloc, h, word)
    } else {
        take_by_look(alloc, h, word)
    }
}
