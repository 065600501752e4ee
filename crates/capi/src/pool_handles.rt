//! The exports that open and split pools.
ghost use Rattle.std.specs.Prelude.{◌≡◌, IfErr, IfOk, None, Some};
ghost use Rattle.capi.specs.Codes.{Answers};
ghost use Rattle.capi.specs.PoolHandles.{HasNoPool, OpensPool, SplitsPool, SplitsPoolAt};
ghost use Rattle.capi.specs.declared.object.Object.TheVariants as object;

use crate::handle::Handle;
use crate::keeping::{borrow, give, is_used, split_off, with_new};
use crate::object::Object;
use crate::pools::{PoolMember, open_pool, split_pool};
use crate::rings::{Fault, answer};
use std::alloc::Global;

/// Opens a pool of n numbers, with this size of cache for each handle, and as many rings to pass numbers on.
#[unsafe(no_mangle)]
pub extern "C" fn hkx_pool_open(alloc: Global, h: &mut Handle, n: u32, size: u32, rings: u32) -> i64
    ensures { Answers result (λ outcome. OpensPool outcome n size rings h.old.value h.new.value) }
{
    with_new!(alloc, h, Pool(open_pool(alloc, n, size, rings)))
}

/// The pool of a handle. Errors: `Empty`; `Kind`. Nothing is changed then.
fn take_pool(slot: &mut Option<Object>) -> Result<PoolMember, Fault>
    ensures pool { IfOk result (λ p. (slot.old ≡ Some (object.Pool p)) × (slot.new ≡ None)) }
    ensures none { IfErr result (λ why. HasNoPool slot.old why × (slot.new ≡ slot.old)) }
{
    match slot {
        Some(Object::Pool(_)) => (),
        Some(_) => return Err(Fault::Kind),
        None => return Err(Fault::Empty),
    }
    match slot.take() {
        Some(Object::Pool(pool)) => Ok(pool),
        _ => unreachable!(),
    }
}

/// Splits the pool of a handle; the second handle's goes into `room`.
fn split_into(
    alloc: Global,
    slot: &mut Option<Object>,
    room: &mut Option<Object>,
) -> Result<u32, Fault>
    requires empty { room.old ≡ None }
    ensures { SplitsPool result slot.old slot.new room.new }
{
    match take_pool(slot) {
        Ok(pool) => {
            let made = split_pool(alloc, &pool);
            *slot = Some(Object::Pool(pool));
            match made {
                Ok(other) => {
                    *room = Some(Object::Pool(other));
                    Ok(0)
                }
                Err(why) => Err(why),
            }
        }
        Err(why) => Err(why),
    }
}

fn split_at(alloc: Global, h: &mut Handle, second: &mut Handle) -> Result<u32, Fault>
    ensures { SplitsPoolAt result h.old.value h.new.value second.old.value second.new.value }
{
    split_off!(alloc, h, second, split_into)
}

/// Gives the second handle, which is null, another cache on the same pool.
#[unsafe(no_mangle)]
pub extern "C" fn hkx_pool_split(alloc: Global, h: &mut Handle, second: &mut Handle) -> i64
    ensures { Answers result
        (λ outcome. SplitsPoolAt outcome h.old.value h.new.value second.old.value second.new.value) }
{
    answer(split_at(alloc, h, second))
}
