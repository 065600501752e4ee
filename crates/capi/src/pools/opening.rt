//! New pools: all numbers are put on the free ring.
ghost use Rattle.std.specs.Prelude.{◌≡◌, ◌+◌, ◌<◌, ◌≤◌, [], IfErr, IfOk, false, length, true};
ghost use Rattle.geom.specs.Extent.{IsExtent, range_of};
ghost use Rattle.fabric.specs.Hands.{IsHandOf, pool_of, rings_of, view};
ghost use Rattle.fabric.specs.Making.{WordsMayStand};
ghost use Rattle.capi.specs.PoolOpenings.{ArePut, HasPut, IsNewPool, IsPoolSize, NoPoolSize, RefusesPool};
ghost use Rattle.capi.specs.PoolMembers.{ArePoolRings, all_numbers};
ghost use Rattle.capi.specs.declared.rings.fault.Fault.TheVariants as fault;

use crate::pools::member::{
    MAX_CACHE, MAX_POOL, MAX_POOL_RINGS, Number, PoolCache, PoolHand, PoolMember, PoolRings,
    PoolSpares,
};
use crate::rings::Fault;
use fabric::{Fabric, OpenFault, Opened};
use geom::{Geometry, Mode, RingPlan};
use ringapi::{PutAnswer, try_put_bulk_slice};
use std::alloc::Global;
use std::sync::Arc;

/// The most numbers of one put on the free ring.
const BULK: usize = 4096;

/// The most puts that a pool is filled by: of 2^20 - 1 numbers.
const BULKS: usize = 256;

/// How many bits of a word are for the count of reserved positions: a request moves at most 4,096 numbers.
const COUNT_BITS: u32 = 13;

/// The size of each ring: it takes all numbers. Its positions go as far as its words have room for, 2^51 - 1.
fn extent(n: u32) -> Geometry
    requires some { 0 < n }
    requires few { n ≤ MAX_POOL }
    ensures capacity { result.capacity ≡ n }
    ensures extent { IsExtent result }
    ensures counts { 4096 < range_of result }
{
    let Ok(geometry) = Geometry::exact(u64::from(n)) else {
        unreachable!();
    };
    match geometry.with_positions(u64::MAX >> COUNT_BITS, COUNT_BITS) {
        Some(geometry) => geometry,
        None => unreachable!(),
    }
}

/// The rings of a pool: each takes all numbers, and its sides are head/tail-sync. The first is the free ring.
fn plans(alloc: Global, n: u32, rings: usize) -> Result<Vec<RingPlan>, Fault>
    requires some { 0 < n }
    requires few { n ≤ MAX_POOL }
    requires rings { rings ≤ MAX_POOL_RINGS }
    ensures made { IfOk result (λ made. ArePoolRings made.items × WordsMayStand made.items n 4096) }
    ensures many { IfOk result (λ made. length made.items ≡ rings + 1) }
    ensures refused { IfErr result (λ why. why ≡ fault.Memory) }
{
    let geometry = extent(n);
    let other = RingPlan::same_mode(geometry, Mode::Hts, false);
    let Ok(mut made) = Vec::from_elem(alloc, other, rings + 1) else {
        return Err(Fault::Memory);
    };
    made[0] = RingPlan::same_mode(geometry, Mode::Hts, true);
    Ok(made)
}

/// The numbers below n.
fn numbers(alloc: Global, n: u32) -> Result<Vec<Number>, Fault>
    ensures made { IfOk result (λ made. made.items ≡ all_numbers n) }
    ensures refused { IfErr result (λ why. why ≡ fault.Memory) }
{
    let Ok(mut made) = Vec::with_capacity(alloc, n as usize) else {
        return Err(Fault::Memory);
    };
    for value in 0..n {
        if made.push(Number { value }).is_err() {
            return Err(Fault::Memory);
        }
    }
    Ok(made)
}

/// Puts numbers on the free ring. No other hand is there yet, so that nothing stands in the way.
fn put_some(f: &PoolRings, hand: PoolHand, items: &[Number]) -> Result<PoolHand, Fault>
    requires hand { IsHandOf f.now hand }
    requires rings { ArePoolRings (rings_of f.now) }
    requires there { 0 < length (rings_of f.now) }
    ensures hand { IfOk result (λ h. IsHandOf f.now h) }
    ensures put { IfOk result (λ h. HasPut items.now (view hand).party.settled (view h).party.settled) }
    ensures refused { IfErr result (λ why. why ≡ fault.Memory) }
{
    match try_put_bulk_slice(f, hand, 0, items) {
        PutAnswer::Done(hand, _) => Ok(hand),
        _ => Err(Fault::Memory),
    }
}

/// Puts all numbers on the free ring, in order.
fn fill(f: &PoolRings, hand: PoolHand, items: &[Number]) -> Result<PoolHand, Fault>
    requires hand { IsHandOf f.now hand }
    requires rings { ArePoolRings (rings_of f.now) }
    requires there { 0 < length (rings_of f.now) }
    requires new { (view hand).party.settled ≡ [] }
    requires few { length items.now ≤ MAX_POOL }
    ensures hand { IfOk result (λ h. IsHandOf f.now h) }
    ensures put { IfOk result (λ h. ArePut (view h).party.settled items.now) }
    ensures refused { IfErr result (λ why. why ≡ fault.Memory) }
{
    let mut hand = hand;
    for i in 0..BULKS {
        let from = BULK * i;
        if from >= items.len() {
            return Ok(hand);
        }
        let to = (from + BULK).min(items.len());
        match put_some(f, hand, &items[from..to]) {
            Ok(back) => hand = back,
            Err(why) => return Err(why),
        }
    }
    Ok(hand)
}

/// The first handle of a pool: all numbers are put on the free ring, and half of the hand's parts become spare hands.
fn stocked(
    alloc: Global,
    fabric: PoolRings,
    hand: PoolHand,
    items: &[Number],
    size: usize,
    rings: usize,
) -> Result<PoolMember, Fault>
    requires hand { IsHandOf fabric hand }
    requires rings { ArePoolRings (rings_of fabric) }
    requires many { length (rings_of fabric) ≡ rings + 1 }
    requires new { (view hand).party.settled ≡ [] }
    requires all { items.now ≡ all_numbers (pool_of fabric) }
    requires few { pool_of fabric ≤ MAX_POOL }
    requires small { size ≤ MAX_CACHE }
    ensures made { IfOk result (λ p. IsNewPool (pool_of fabric) size rings p) }
    ensures refused { IfErr result (λ why. why ≡ fault.Memory) }
{
    let hand = fill(&fabric, hand, items)?;
    let Ok(fabric) = Arc::new(alloc, fabric) else {
        return Err(Fault::Memory);
    };
    let Ok(spares) = PoolSpares::new(alloc, &fabric) else {
        return Err(Fault::Memory);
    };
    let Ok((first, spare)) = hand.split(alloc, &fabric) else {
        return Err(Fault::Memory);
    };
    let Ok(()) = spares.add(&fabric, spare) else {
        return Err(Fault::Memory);
    };
    let Ok(spares) = Arc::new(alloc, spares) else {
        return Err(Fault::Memory);
    };
    match PoolCache::new(alloc, first, 0, size) {
        Ok(local) => Ok(PoolMember {
            fabric,
            local,
            spares,
            rings,
        }),
        Err(_) => Err(Fault::Memory),
    }
}

/// Whether there can be such a pool.
fn may_be(n: u32, size: u32, rings: u32) -> bool
    ensures may { result ≡ true → IsPoolSize n size rings }
    ensures not { result ≡ false → NoPoolSize n size rings }
{
    if n == 0 || n > MAX_POOL {
        return false;
    }
    size <= MAX_CACHE && rings <= MAX_POOL_RINGS
}

/// A pool of n numbers, none of them cached, with this size of cache and as many rings to pass numbers on. Errors:
/// `Plan`; `Memory`.
pub fn open_pool(alloc: Global, n: u32, size: u32, rings: u32) -> Result<PoolMember, Fault>
    ensures made { IfOk result (λ p. IsNewPool n size rings p) }
    ensures refused { IfErr result (λ why. RefusesPool n size rings why) }
{
    if !may_be(n, size, rings) {
        return Err(Fault::Plan);
    }
    let plans = plans(alloc, n, rings as usize)?;
    let numbers = numbers(alloc, n)?;
    match Fabric::of_words(alloc, plans, n, numbers) {
        Ok(opened) => {
            let Opened {
                fabric,
                hand,
                items,
            } = opened;
            stocked(alloc, fabric, hand, &items, size as usize, rings as usize)
        }
        Err(OpenFault::Memory(_)) => Err(Fault::Memory),
        // The rings can be, and each number is there once.
        Err(OpenFault::BadPlan(_)) => unreachable!(),
        Err(OpenFault::BadTags(_)) => unreachable!(),
    }
}
