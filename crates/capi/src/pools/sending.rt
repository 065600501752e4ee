//! Numbers that are sent to other handles over rings, and received from them.
ghost use Rattle.capi.specs.Same.{ReceivesNumbers, SendsNumbers};

use crate::pools::member::{MAX_NUMBERS, Number, PoolMember};
use crate::pools::tries::{Tries, receive, refused, send};
use crate::rings::{Fault, fault_of};
use geom::How;

/// Puts numbers on a ring, from which another handle receives them: by bulk all, by burst as many of the first ones
/// as there is room for. Errors: `Ring`; `Count`; those of the last try.
pub fn send_numbers(
    pool: &mut PoolMember,
    ring: usize,
    items: &[Number],
    how: How,
) -> Result<u32, Fault>
    ensures { SendsNumbers ring how items.now pool.old pool.new result }
{
    if ring >= pool.rings {
        return Err(Fault::Ring);
    }
    let n = items.len();
    if n == 0 || n > MAX_NUMBERS {
        return Err(Fault::Count);
    }
    // Ring 0 is the free ring.
    let to = ring + 1;
    let tries = &mut Tries::new();
    match send(&pool.fabric, &mut pool.local, to, how, items, tries) {
        Ok(moved) => Ok(moved.count as u32),
        Err(why) => Err(refused(why)),
    }
}

/// Takes numbers of a ring to the front of an array, or leaves it as it is: by bulk the array is filled, by burst with
/// as many as are queued. Errors: `Ring`; `Count`; those of the last try.
pub fn receive_numbers(
    pool: &mut PoolMember,
    ring: usize,
    into: &mut [Number],
    how: How,
) -> Result<u32, Fault>
    ensures { ReceivesNumbers ring how into.old into.new pool.old pool.new result }
{
    if ring >= pool.rings {
        return Err(Fault::Ring);
    }
    let n = into.len();
    if n == 0 || n > MAX_NUMBERS {
        return Err(Fault::Count);
    }
    let from = ring + 1;
    let tries = &mut Tries::new();
    match receive(&pool.fabric, &mut pool.local, from, how, into, tries) {
        Ok(moved) => Ok(moved.count as u32),
        Err(why) => Err(fault_of(why)),
    }
}
