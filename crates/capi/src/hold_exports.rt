//! The exports for a side that a hand holds.
ghost use Rattle.capi.specs.Calls.{how_of};
ghost use Rattle.capi.specs.Codes.{Answers};
ghost use Rattle.capi.specs.HandCalls.{AtHand};
ghost use Rattle.capi.specs.Holding.{AdvancesPut, AdvancesTake, EndsHeld, HoldsTake};

use crate::handle::Handle;
use crate::keeping::{borrow, with_object};
use crate::object::Object;
use crate::rings::{
    Fault, Word64, advance_put, advance_take, answer, hold_take, how, release_take,
};
use std::alloc::Global;

/// Publishes words at the first positions of the open span of a put. The other positions stay reserved.
#[unsafe(no_mangle)]
pub extern "C" fn hkx_ring_advance_put(alloc: Global, h: &mut Handle, words: &[Word64]) -> i64
    ensures { Answers result (AtHand h.old.value h.new.value (AdvancesPut words.now)) }
{
    with_object!(alloc, h, Hand(member) => advance_put(member, words))
}

/// Holds the take side of a ring, with its next words.
#[unsafe(no_mangle)]
pub extern "C" fn hkx_ring_hold_take(
    alloc: Global,
    h: &mut Handle,
    ring: usize,
    n: usize,
    bulk: bool,
) -> i64
    ensures { Answers result (AtHand h.old.value h.new.value (HoldsTake ring (how_of bulk) n)) }
{
    with_object!(alloc, h, Hand(member) => hold_take(member, ring, n, how(bulk)))
}

/// Fills an array with the next words of the held side. The others stay queued, and the side held.
#[unsafe(no_mangle)]
pub extern "C" fn hkx_ring_advance_take(alloc: Global, h: &mut Handle, words: &mut [Word64]) -> i64
    ensures { Answers result (AtHand h.old.value h.new.value (AdvancesTake words.old words.new)) }
{
    with_object!(alloc, h, Hand(member) => advance_take(member, words))
}

/// Fills an array, which may be empty, with the next words of the held side, and gives the side up.
#[unsafe(no_mangle)]
pub extern "C" fn hkx_ring_release_take(alloc: Global, h: &mut Handle, words: &mut [Word64]) -> i64
    ensures { Answers result (AtHand h.old.value h.new.value (EndsHeld words.old words.new)) }
{
    with_object!(alloc, h, Hand(member) => release_take(member, words))
}
