//! Puts of numbers, and flushes: into the cache, and onto the free ring.
ghost use Rattle.std.specs.Prelude.{◌≡◌, ◌<◌, length, IfNone, IfSome};
ghost use Rattle.fabric.specs.Hands.{rings_of};
ghost use Rattle.pool.specs.Locals.{IsLocalOf};
ghost use Rattle.capi.specs.PoolCalls.{Flushes, Puts};
ghost use Rattle.capi.specs.PoolMembers.{ArePoolRings};
ghost use Rattle.capi.specs.Same.{PutsNumbers};

use crate::pools::member::{MAX_ASKED, MAX_NUMBERS, Number, PoolCache, PoolMember, PoolRings};
use crate::pools::tries::{Tries, refused, send};
use crate::rings::Fault;
use geom::How;
use pool_laws::PoolFault;

/// Puts numbers back that the handle has.
#[inline(always)]
fn put_numbers(f: &PoolRings, local: &mut PoolCache, items: &[Number]) -> Result<u32, Fault>
    requires local { IsLocalOf f.now local.old }
    requires rings { ArePoolRings (rings_of f.now) }
    requires there { 0 < length (rings_of f.now) }
    ensures local { IsLocalOf f.now local.new }
    ensures exact { Puts f.now local.old local.new items.now result }
{
    let n = items.len();
    if n == 0 || n > MAX_NUMBERS {
        return Err(Fault::Count);
    }
    match local.put_cached_from_slice(items) {
        Ok(()) => Ok(n as u32),
        Err(PoolFault::CacheFull) => match send(f, local, 0, How::Bulk, items, &mut Tries::new()) {
            Ok(_) => Ok(n as u32),
            Err(why) => Err(refused(why)),
        },
        Err(_) => Err(Fault::NotYours),
    }
}

/// Puts numbers back that a handle of a pool has.
#[inline(always)]
pub fn put_back(pool: &mut PoolMember, items: &[Number]) -> Result<u32, Fault>
    ensures { PutsNumbers items.now pool.old pool.new result }
{
    put_numbers(&pool.fabric, &mut pool.local, items)
}

/// `put_back` of one number for which the cache has room. At `None` nothing was done.
#[inline(always)]
pub fn put_one(pool: &mut PoolMember, items: &[Number]) -> Option<Result<u32, Fault>>
    ensures done { IfSome result (λ outcome. PutsNumbers items.now pool.old pool.new outcome) }
    ensures none { IfNone result (pool.new ≡ pool.old) }
{
    if items.len() != 1 {
        return None;
    }
    if pool.local.room() == 0 {
        return None;
    }
    Some(put_back(pool, items))
}

/// Puts all that is cached on the free ring, the oldest first.
pub fn flush_numbers(f: &PoolRings, local: &mut PoolCache) -> Result<u32, Fault>
    requires local { IsLocalOf f.now local.old }
    requires rings { ArePoolRings (rings_of f.now) }
    requires there { 0 < length (rings_of f.now) }
    ensures local { IsLocalOf f.now local.new }
    ensures exact { Flushes f.now local.old local.new result }
{
    let n = local.len();
    if n == 0 {
        return Ok(0);
    }
    let mut places = [Number { value: 0 }; MAX_ASKED];
    let cached = &mut places[..n];
    match local.get_cached_into_slice(cached) {
        Ok(()) => (),
        Err(_) => unreachable!(),
    }
    cached.reverse();
    match send(f, local, 0, How::Bulk, cached, &mut Tries::new()) {
        Ok(_) => Ok(n as u32),
        Err(why) => {
            match local.put_cached_from_slice(cached) {
                Ok(()) => Err(refused(why)),
                Err(_) => unreachable!(),
            }
        }
    }
}
