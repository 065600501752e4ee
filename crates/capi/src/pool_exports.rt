//! The exports for calls on pools of numbers.
ghost use Rattle.std.specs.Prelude.{◌≡◌, IfErr, IfNone, IfSome};
ghost use Rattle.capi.specs.Codes.{Answers};
ghost use Rattle.capi.specs.PoolHandles.{AtPool};
ghost use Rattle.capi.specs.Calls.{how_of};
ghost use Rattle.capi.specs.RingCalls.{room_side};
ghost use Rattle.capi.specs.Same.{CountsFree, CountsNumbers, FlushesCache, GetsNumbers, PutsNumbers};
ghost use Rattle.capi.specs.Same.{ReceivesNumbers, SendsNumbers, TellsCached, TellsOwned};

use crate::handle::Handle;
use crate::keeping::{borrow, try_with_object, with_object};
use crate::object::Object;
use crate::pools::{
    Number, count_free, count_on, flush_numbers, get_into, get_one, put_back, put_one,
    receive_numbers, send_numbers,
};
use crate::rings::{Fault, answer, how, side_of};
use std::alloc::Global;

/// Fills an array with one number, if the cache has one. At `None` nothing was done.
#[inline(always)]
fn try_get_one(alloc: Global, h: &mut Handle, into: &mut [Number]) -> Option<i64>
    ensures done { IfSome result (λ code. Answers code
        (λ outcome. AtPool h.old.value h.new.value (GetsNumbers into.old into.new) outcome
        × IfErr outcome (λ _. into.new ≡ into.old))) }
    ensures none { IfNone result ((h.new.value ≡ h.old.value) × (into.new ≡ into.old)) }
{
    try_with_object!(alloc, h, Pool(pool) => get_one(pool, into))
}

/// Any get. It is apart from that of one number, which then saves no registers.
#[inline(never)]
fn get_any(alloc: Global, h: &mut Handle, into: &mut [Number]) -> i64
    ensures { Answers result (λ outcome. AtPool h.old.value h.new.value (GetsNumbers into.old into.new) outcome
        × IfErr outcome (λ _. into.new ≡ into.old)) }
{
    with_object!(alloc, h, Pool(pool) => get_into(pool, into))
}

/// Fills an array with numbers of the pool.
#[unsafe(no_mangle)]
pub extern "C" fn hkx_pool_get(alloc: Global, h: &mut Handle, into: &mut [Number]) -> i64
    ensures { Answers result (λ outcome. AtPool h.old.value h.new.value (GetsNumbers into.old into.new) outcome
        × IfErr outcome (λ _. into.new ≡ into.old)) }
{
    match try_get_one(alloc, h, into) {
        Some(code) => code,
        None => get_any(alloc, h, into),
    }
}

/// Puts one number back, if the cache has room. At `None` nothing was done.
#[inline(always)]
fn try_put_one(alloc: Global, h: &mut Handle, items: &[Number]) -> Option<i64>
    ensures done { IfSome result (λ code. Answers code (AtPool h.old.value h.new.value (PutsNumbers items.now))) }
    ensures none { IfNone result (h.new.value ≡ h.old.value) }
{
    try_with_object!(alloc, h, Pool(pool) => put_one(pool, items))
}

/// Any put.
#[inline(never)]
fn put_any(alloc: Global, h: &mut Handle, items: &[Number]) -> i64
    ensures { Answers result (AtPool h.old.value h.new.value (PutsNumbers items.now)) }
{
    with_object!(alloc, h, Pool(pool) => put_back(pool, items))
}

/// Puts numbers back that the handle has.
#[unsafe(no_mangle)]
pub extern "C" fn hkx_pool_put(alloc: Global, h: &mut Handle, items: &[Number]) -> i64
    ensures { Answers result (AtPool h.old.value h.new.value (PutsNumbers items.now)) }
{
    match try_put_one(alloc, h, items) {
        Some(code) => code,
        None => put_any(alloc, h, items),
    }
}

/// Puts all that is cached on the free ring.
#[unsafe(no_mangle)]
pub extern "C" fn hkx_pool_flush(alloc: Global, h: &mut Handle) -> i64
    ensures { Answers result (AtPool h.old.value h.new.value FlushesCache) }
{
    with_object!(alloc, h, Pool(pool) => flush_numbers(&pool.fabric, &mut pool.local))
}

/// Sends numbers over a ring of the pool.
#[unsafe(no_mangle)]
pub extern "C" fn hkx_pool_send(
    alloc: Global,
    h: &mut Handle,
    ring: usize,
    items: &[Number],
    bulk: bool,
) -> i64
    ensures { Answers result (AtPool h.old.value h.new.value (SendsNumbers ring (how_of bulk) items.now)) }
{
    with_object!(alloc, h, Pool(pool) => send_numbers(pool, ring, items, how(bulk)))
}

/// Receives numbers from a ring of the pool.
#[unsafe(no_mangle)]
pub extern "C" fn hkx_pool_receive(
    alloc: Global,
    h: &mut Handle,
    ring: usize,
    into: &mut [Number],
    bulk: bool,
) -> i64
    ensures { Answers result
        (λ outcome. AtPool h.old.value h.new.value (ReceivesNumbers ring (how_of bulk) into.old into.new) outcome
        × IfErr outcome (λ _. into.new ≡ into.old)) }
{
    with_object!(alloc, h, Pool(pool) => receive_numbers(pool, ring, into, how(bulk)))
}

/// How many numbers are queued on a ring of the pool, or how many more there is room for.
#[unsafe(no_mangle)]
pub extern "C" fn hkx_pool_room(alloc: Global, h: &mut Handle, ring: usize, queued: bool) -> i64
    ensures { Answers result (AtPool h.old.value h.new.value (CountsNumbers ring (room_side queued))) }
{
    with_object!(alloc, h, Pool(pool) => count_on(pool, ring, side_of(queued)))
}

/// How many numbers are on the free ring.
#[unsafe(no_mangle)]
pub extern "C" fn hkx_pool_free_count(alloc: Global, h: &mut Handle) -> i64
    ensures { Answers result (AtPool h.old.value h.new.value CountsFree) }
{
    with_object!(alloc, h, Pool(pool) => Ok(count_free(pool)))
}

/// How many numbers the handle's cache has.
#[unsafe(no_mangle)]
pub extern "C" fn hkx_pool_cached(alloc: Global, h: &mut Handle) -> i64
    ensures { Answers result (AtPool h.old.value h.new.value TellsCached) }
{
    with_object!(alloc, h, Pool(pool) => Ok(pool.local.len() as u32))
}

/// Whether the handle has a number, cached or not: 1 or 0.
#[unsafe(no_mangle)]
pub extern "C" fn hkx_pool_owns(alloc: Global, h: &mut Handle, number: u32) -> i64
    ensures { Answers result (AtPool h.old.value h.new.value (TellsOwned number)) }
{
    with_object!(alloc, h, Pool(pool) => Ok(pool.local.owns(number) as u32))
}
