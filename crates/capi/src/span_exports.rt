//! The exports for peeks at rings and for finishing open spans.
ghost use Rattle.capi.specs.Calls.{how_of};
ghost use Rattle.capi.specs.Codes.{Answers};
ghost use Rattle.capi.specs.HandCalls.{AtHand};
ghost use Rattle.capi.specs.MemberCalls.{EndsPut, EndsTake, OpensPut, OpensTake};

use crate::handle::Handle;
use crate::keeping::{borrow, with_object};
use crate::object::Object;
use crate::rings::{
    Fault, Word64, answer, finish_put_of, finish_take_of, how, peek_put_of, peek_take_of,
};
use std::alloc::Global;

/// Reserves positions of a put side.
#[unsafe(no_mangle)]
pub extern "C" fn hkx_ring_peek_put(
    alloc: Global,
    h: &mut Handle,
    ring: usize,
    n: usize,
    bulk: bool,
) -> i64
    ensures { Answers result (AtHand h.old.value h.new.value (OpensPut ring (how_of bulk) n)) }
{
    with_object!(alloc, h, Hand(member) => peek_put_of(member, ring, n, how(bulk)))
}

/// Reserves words of a take side, and shows them at the front of an array.
#[unsafe(no_mangle)]
pub extern "C" fn hkx_ring_peek_take(
    alloc: Global,
    h: &mut Handle,
    ring: usize,
    words: &mut [Word64],
    bulk: bool,
) -> i64
    ensures { Answers result
        (AtHand h.old.value h.new.value (OpensTake ring (how_of bulk) words.old words.new)) }
{
    with_object!(alloc, h, Hand(member) => peek_take_of(member, ring, words, how(bulk)))
}

/// Finishes the put that the hand has open.
#[unsafe(no_mangle)]
pub extern "C" fn hkx_ring_finish_put(alloc: Global, h: &mut Handle, words: &[Word64]) -> i64
    ensures { Answers result (AtHand h.old.value h.new.value (EndsPut words.now)) }
{
    with_object!(alloc, h, Hand(member) => finish_put_of(member, words))
}

/// Finishes the take that the hand has open.
#[unsafe(no_mangle)]
pub extern "C" fn hkx_ring_finish_take(alloc: Global, h: &mut Handle, n: usize) -> i64
    ensures { Answers result (AtHand h.old.value h.new.value (EndsTake n)) }
{
    with_object!(alloc, h, Hand(member) => finish_take_of(member, n))
}
