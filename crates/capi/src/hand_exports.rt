//! The exports that open, split and close hands.
ghost use Rattle.std.specs.Prelude.{◌≡◌, IfErr, IfOk, None, Some};
ghost use Rattle.capi.specs.Codes.{Answers};
ghost use Rattle.capi.specs.HandCalls.{AtLeftover, HasNoHand};
ghost use Rattle.capi.specs.HandExports.{OpensHand, SplitsAt, SplitsHand};
ghost use Rattle.capi.specs.Leftovers.{DrainsLeftover};
ghost use Rattle.capi.specs.Closings.{ClosesAt};
ghost use Rattle.capi.specs.declared.object.Object.TheVariants as object;

use crate::handle::Handle;
use crate::keeping::{borrow, give, is_used, split_off, with_new, with_object};
use crate::object::Object;
use crate::rings::{Asked, Fault, MAX_WORDS, Member, Word64, answer, close, drain, open, split};
use std::alloc::Global;

/// Opens a set of rings, all empty, and the first hand on it.
#[unsafe(no_mangle)]
pub extern "C" fn hkx_hand_open(alloc: Global, h: &mut Handle, asked: &[Asked]) -> i64
    ensures { Answers result (λ outcome. OpensHand outcome asked.now h.old.value h.new.value) }
{
    with_new!(alloc, h, Hand(open(alloc, asked)))
}

/// The hand of a handle. Errors: `Empty`; `Kind`. Nothing is changed then.
fn take_hand(slot: &mut Option<Object>) -> Result<Member, Fault>
    ensures hand { IfOk result (λ m. (slot.old ≡ Some (object.Hand m)) × (slot.new ≡ None)) }
    ensures none { IfErr result (λ why. HasNoHand slot.old why × (slot.new ≡ slot.old)) }
{
    match slot {
        Some(Object::Hand(_)) => (),
        Some(_) => return Err(Fault::Kind),
        None => return Err(Fault::Empty),
    }
    match slot.take() {
        Some(Object::Hand(member)) => Ok(member),
        _ => unreachable!(),
    }
}

/// Splits the hand of a handle; the second hand goes into `room`.
fn split_into(
    alloc: Global,
    slot: &mut Option<Object>,
    room: &mut Option<Object>,
) -> Result<u32, Fault>
    requires empty { room.old ≡ None }
    ensures { SplitsHand result slot.old slot.new room.new }
{
    match take_hand(slot) {
        Ok(member) => {
            let (member, made) = split(alloc, member);
            *slot = Some(Object::Hand(member));
            match made {
                Ok(other) => {
                    *room = Some(Object::Hand(other));
                    Ok(0)
                }
                Err(why) => Err(why),
            }
        }
        Err(why) => Err(why),
    }
}

fn split_at(alloc: Global, h: &mut Handle, second: &mut Handle) -> Result<u32, Fault>
    ensures { SplitsAt result h.old.value h.new.value second.old.value second.new.value }
{
    split_off!(alloc, h, second, split_into)
}

/// Splits a hand in two: the second handle, which is null, gets another hand on the same rings.
#[unsafe(no_mangle)]
pub extern "C" fn hkx_hand_split(alloc: Global, h: &mut Handle, second: &mut Handle) -> i64
    ensures { Answers result
        (λ outcome. SplitsAt outcome h.old.value h.new.value second.old.value second.new.value) }
{
    answer(split_at(alloc, h, second))
}

/// Closes the rings of the hand that a handle has.
#[tactic(auto, using(crate::proofs::Slots::closes_none, crate::proofs::Slots::closes_hand))]
fn close_in(slot: &mut Option<Object>) -> Result<u32, Fault>
    ensures { ClosesAt slot.old slot.new result }
{
    match take_hand(slot) {
        Ok(member) => match close(member) {
            Ok(leftover) => {
                *slot = Some(Object::Leftover(leftover));
                Ok(0)
            }
            Err((member, why)) => {
                *slot = Some(Object::Hand(member));
                Err(why)
            }
        },
        Err(why) => Err(why),
    }
}

fn close_at(alloc: Global, h: &mut Handle) -> Result<u32, Fault>
    ensures { ClosesAt h.old.value h.new.value result }
{
    let Some(mut slot) = borrow(alloc, h) else {
        return Err(Fault::Empty);
    };
    let outcome = close_in(&mut slot);
    *h = Handle::of(slot);
    outcome
}

/// Closes a set of rings by its only hand. Then the handle has what is left on them.
#[unsafe(no_mangle)]
pub extern "C" fn hkx_hand_close(alloc: Global, h: &mut Handle) -> i64
    ensures { Answers result (ClosesAt h.old.value h.new.value) }
{
    answer(close_at(alloc, h))
}

/// Takes words that are left on a ring of a closed set, the oldest first.
#[unsafe(no_mangle)]
pub extern "C" fn hkx_hand_drain(
    alloc: Global,
    h: &mut Handle,
    ring: usize,
    words: &mut [Word64],
) -> i64
    ensures { Answers result (λ outcome. AtLeftover h.old.value h.new.value
        (λ r u code. DrainsLeftover code MAX_WORDS ring words.old words.new r u) outcome
        × IfErr outcome (λ _. words.new ≡ words.old)) }
{
    with_object!(alloc, h, Leftover(leftover) => drain(leftover, ring, words))
}
