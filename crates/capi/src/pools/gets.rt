//! Gets of numbers: from the cache, and if it has too few, with one request to the free ring or two.
ghost use Rattle.std.specs.Prelude.{◌≡◌, ◌+◌, ◌-◌, ◌<◌, ◌≤◌, ◌++◌, [], length, Err, IfErr, IfNone, IfOk, IfSome};
ghost use Rattle.fabric.specs.Hands.{rings_of};
ghost use Rattle.fabric.specs.Settles.{AreOwnBuffers};
ghost use Rattle.ringapi.specs.Views.{by_bulk};
ghost use Rattle.pool_laws.specs.Caches.{cached_after_get, taken_by_get};
ghost use Rattle.pool.specs.Locals.{HasSameHand, IsLocalOf, SameRing, cache_of, cache_size, view_of};
ghost use Rattle.capi.specs.PoolCalls.{Gets, HasDrawn};
ghost use Rattle.capi.specs.PoolMembers.{ArePoolRings, numbers_of};
ghost use Rattle.capi.specs.Same.{GetsNumbers};
ghost use Rattle.capi.specs.Tries.{IsSame, Received};

use crate::pools::member::{
    MAX_ASKED, MAX_FILLING, MAX_NUMBERS, Number, PoolCache, PoolMember, PoolRings,
};
use crate::pools::tries::{Tries, receive};
use crate::rings::{Fault, fault_of};
use fabric::StartFault;
use geom::How;

/// Deals what the cache has and what the free ring gave: the array is filled, and the rest is cached.
fn deal(local: &mut PoolCache, taken: &[Number], into: &mut [Number])
    requires short { length (cache_of local.old) < length into.old }
    requires enough { length into.old - length (cache_of local.old) ≤ length taken.now }
    requires rest { length taken.now ≤ length into.old - length (cache_of local.old) + cache_size local.old }
    requires own { AreOwnBuffers numbers_of (view_of local.old) (taken.now ++ cache_of local.old) }
    ensures same { SameRing local.old local.new × HasSameHand local.old local.new }
    ensures given { into.new ≡ taken_by_get (length into.old) (cache_of local.old) taken.now }
    ensures cached { cache_of local.new ≡ cached_after_get (length into.old) (cache_of local.old) taken.now }
    ensures own { AreOwnBuffers numbers_of (view_of local.new) (into.new ++ cache_of local.new) }
{
    let (front, rest) = into.split_at_mut(local.len());
    match local.get_cached_into_slice(front) {
        Ok(()) => (),
        Err(_) => unreachable!(),
    }
    let missing = rest.len();
    rest.copy_from_slice(&taken[..missing]);
    match local.put_cached_from_slice(&taken[missing..]) {
        Ok(()) => (),
        Err(_) => unreachable!(),
    }
}

/// Gets numbers, with `asked` of them from the free ring.
#[inline(never)]
fn draw(
    f: &PoolRings,
    local: &mut PoolCache,
    asked: usize,
    into: &mut [Number],
) -> Result<(), StartFault>
    requires local { IsLocalOf f.now local.old }
    requires rings { ArePoolRings (rings_of f.now) }
    requires there { 0 < length (rings_of f.now) }
    requires short { length (cache_of local.old) < length into.old }
    requires enough { length into.old - length (cache_of local.old) ≤ asked }
    requires most { asked ≤ length into.old - length (cache_of local.old) + cache_size local.old }
    requires fits { asked ≤ MAX_ASKED }
    ensures local { IsLocalOf f.now local.new }
    ensures got { IfOk result (λ _. HasDrawn f.now local.old local.new (length into.old) asked into.new) }
    ensures back { IfErr result (λ _. (into.new ≡ into.old) × IsSame local.old local.new) }
    ensures refused { IfErr result (λ why. Received f.now by_bulk 0 asked local.old local.new (Err why) []) }
{
    let mut places = [Number { value: 0 }; MAX_ASKED];
    let taken = &mut places[..asked];
    match receive(f, local, 0, How::Bulk, taken, &mut Tries::new()) {
        Ok(_) => {
            deal(local, taken, into);
            Ok(())
        }
        Err(why) => Err(why),
    }
}

/// Gets numbers if the cache has too few: those that it lacks come from the free ring straight into the array.
#[inline(never)]
fn get_missing(f: &PoolRings, local: &mut PoolCache, into: &mut [Number]) -> Result<u32, Fault>
    requires local { IsLocalOf f.now local.old }
    requires rings { ArePoolRings (rings_of f.now) }
    requires there { 0 < length (rings_of f.now) }
    requires short { length (cache_of local.old) < length into.old }
    requires few { length into.old ≤ MAX_NUMBERS }
    ensures local { IsLocalOf f.now local.new }
    ensures exact { Gets f.now local.old local.new into.old into.new result }
{
    let n = into.len();
    let (front, rest) = into.split_at_mut(local.len());
    match receive(f, local, 0, How::Bulk, rest, &mut Tries::new()) {
        Ok(_) => match local.get_cached_into_slice(front) {
            Ok(()) => Ok(n as u32),
            Err(_) => unreachable!(),
        },
        Err(why) => Err(fault_of(why)),
    }
}

/// Gets numbers if the cache has too few: with a whole cache more, or if the free ring has fewer, without.
#[inline(never)]
fn get_more(f: &PoolRings, local: &mut PoolCache, into: &mut [Number]) -> Result<u32, Fault>
    requires local { IsLocalOf f.now local.old }
    requires rings { ArePoolRings (rings_of f.now) }
    requires there { 0 < length (rings_of f.now) }
    requires short { length (cache_of local.old) < length into.old }
    requires few { length into.old ≤ MAX_FILLING }
    ensures local { IsLocalOf f.now local.new }
    ensures exact { Gets f.now local.old local.new into.old into.new result }
{
    let n = into.len();
    let missing = n - local.len();
    let more = missing + local.size();
    match draw(f, local, more, into) {
        Ok(()) => return Ok(n as u32),
        Err(StartFault::NoRoom(_)) => (),
        Err(why) => return Err(fault_of(why)),
    }
    get_missing(f, local, into)
}

/// Fills an array with numbers, or leaves it as it is.
#[inline(always)]
fn get_numbers(f: &PoolRings, local: &mut PoolCache, into: &mut [Number]) -> Result<u32, Fault>
    requires local { IsLocalOf f.now local.old }
    requires rings { ArePoolRings (rings_of f.now) }
    requires there { 0 < length (rings_of f.now) }
    ensures local { IsLocalOf f.now local.new }
    ensures exact { Gets f.now local.old local.new into.old into.new result }
{
    let n = into.len();
    if n == 0 || n > MAX_NUMBERS {
        return Err(Fault::Count);
    }
    if local.len() < n {
        if n > MAX_FILLING {
            return get_missing(f, local, into);
        }
        return get_more(f, local, into);
    }
    match local.get_cached_into_slice(into) {
        Ok(()) => Ok(n as u32),
        Err(_) => unreachable!(),
    }
}

/// `get_into` of one number that is cached. At `None` nothing was done. For one number `get_into`, inlined, has no call
/// and no loop, so the caller saves no registers.
#[inline(always)]
pub fn get_one(pool: &mut PoolMember, into: &mut [Number]) -> Option<Result<u32, Fault>>
    ensures done { IfSome result (λ outcome. GetsNumbers into.old into.new pool.old pool.new outcome) }
    ensures none { IfNone result ((pool.new ≡ pool.old) × (into.new ≡ into.old)) }
{
    if into.len() != 1 {
        return None;
    }
    if pool.local.is_empty() {
        return None;
    }
    Some(get_into(pool, into))
}

/// Fills an array with numbers of a handle's pool, or leaves it as it is.
#[inline(always)]
pub fn get_into(pool: &mut PoolMember, into: &mut [Number]) -> Result<u32, Fault>
    ensures { GetsNumbers into.old into.new pool.old pool.new result }
{
    get_numbers(&pool.fabric, &mut pool.local, into)
}
