//! Taking an object out of a handle for a call, and putting it back.
ghost use Rattle.std.specs.Prelude.{◌≡◌, MatchOption, None, Some, false};
ghost use Rattle.capi.specs.Codes.{Answers};
ghost use Rattle.capi.specs.Handles.{Frees, GivesOut, TakesOut};

use crate::handle::Handle;
use crate::object::Object;
use crate::rings::{Fault, answer};
use std::alloc::Global;

/// Takes the box out of a handle, which then is null.
pub(crate) fn borrow(alloc: Global, h: &mut Handle) -> Option<Box<Option<Object>>>
    ensures out { MatchOption result (h.old.value ≡ None) (λ b. b.value ≡ h.old.value) }
    ensures null { h.new.value ≡ None }
{
    std::mem::replace(h, Handle::none(alloc)).into_box()
}

/// Calls with what a handle has, in place: `with_object!(alloc, h, Hand(member) => ..)` is the code of what the call
/// returns. Errors: `Empty` if the handle is null; `Kind` if it has something else. Nothing is changed then.
macro_rules! with_object {
    ($alloc:ident, $h:ident, $kind:ident($object:ident) => $call:expr) => {{
        let outcome = match borrow($alloc, $h) {
            Some(mut slot) => {
                let outcome = match &mut *slot {
                    Some(Object::$kind($object)) => $call,
                    Some(_) => Err(Fault::Kind),
                    None => Err(Fault::Empty),
                };
                *$h = Handle::of(slot);
                outcome
            }
            None => Err(Fault::Empty),
        };
        answer(outcome)
    }};
}

pub(crate) use with_object;

/// `with_object!` for a call that does only the usual cases. The caller's answer is `None`, and nothing was done, if
/// the call is `None`, and for a null handle and another kind of object.
macro_rules! try_with_object {
    ($alloc:ident, $h:ident, $kind:ident($object:ident) => $call:expr) => {{
        let Some(mut slot) = borrow($alloc, $h) else {
            return None;
        };
        let outcome = match &mut *slot {
            Some(Object::$kind($object)) => $call,
            _ => None,
        };
        *$h = Handle::of(slot);
        match outcome {
            Some(outcome) => Some(answer(outcome)),
            None => None,
        }
    }};
}

pub(crate) use try_with_object;

/// Whether a handle isn't null.
pub(crate) fn is_used(alloc: Global, h: &mut Handle) -> bool
    ensures kept { h.new.value ≡ h.old.value }
    ensures free { result ≡ false → h.old.value ≡ None }
{
    match borrow(alloc, h) {
        Some(slot) => {
            *h = Handle::of(slot);
            true
        }
        None => false,
    }
}

/// Puts an object into a null handle. Errors: `Memory`; then the object is dropped.
pub(crate) fn give(alloc: Global, object: Object, h: &mut Handle) -> Result<u32, Fault>
    requires empty { h.old.value ≡ None }
    ensures { GivesOut result object h.new.value }
{
    match Box::new(alloc, Some(object)) {
        Ok(slot) => {
            *h = Handle::of(slot);
            Ok(0)
        }
        Err(_) => Err(Fault::Memory),
    }
}

/// Puts a new object into a null handle: `with_new!(alloc, h, Hand(open(alloc, asked)))` is the code. Errors: `Used` if
/// the handle isn't null; why there is no such object; `Memory`. Nothing is changed then.
macro_rules! with_new {
    ($alloc:ident, $h:ident, $kind:ident($made:expr)) => {{
        let outcome = if is_used($alloc, $h) {
            Err(Fault::Used)
        } else {
            match $made {
                Ok(made) => give($alloc, Object::$kind(made), $h),
                Err(why) => Err(why),
            }
        };
        answer(outcome)
    }};
}

pub(crate) use with_new;

/// Splits what a handle has in two: `split_off!(alloc, h, second, split_into)` is the outcome. The second handle, which
/// is null, gets what `split_into` leaves in an empty room. Errors: `Used` if the second isn't null; `Memory`; `Empty`
/// if the first is null; those of `split_into`.
macro_rules! split_off {
    ($alloc:ident, $h:ident, $second:ident, $split:ident) => {{
        if is_used($alloc, $second) {
            return Err(Fault::Used);
        }
        let Ok(mut room) = Box::new($alloc, None) else {
            return Err(Fault::Memory);
        };
        let Some(mut slot) = borrow($alloc, $h) else {
            return Err(Fault::Empty);
        };
        let outcome = $split($alloc, &mut slot, &mut room);
        *$h = Handle::of(slot);
        match outcome {
            Ok(count) => {
                *$second = Handle::of(room);
                Ok(count)
            }
            Err(why) => Err(why),
        }
    }};
}

pub(crate) use split_off;

/// Gives a second handle, which is null, an object that `found` makes of what a handle has: `share_with!(alloc, h,
/// second, Routes(shared))` is the outcome. Errors: `Used` if the second isn't null; `Empty` if the first is null; why
/// `found` makes none; `Memory`.
macro_rules! share_with {
    ($alloc:ident, $h:ident, $second:ident, $kind:ident($found:ident)) => {{
        if is_used($alloc, $second) {
            return Err(Fault::Used);
        }
        let Some(mut slot) = borrow($alloc, $h) else {
            return Err(Fault::Empty);
        };
        let found = $found(&mut slot);
        *$h = Handle::of(slot);
        match found {
            Ok(made) => give($alloc, Object::$kind(made), $second),
            Err(why) => Err(why),
        }
    }};
}

pub(crate) use share_with;

/// Takes out what a handle has, to be dropped as it is: an open span is neither settled nor withdrawn. Then the handle
/// is null.
fn take_out(alloc: Global, h: &mut Handle) -> Result<Box<Option<Object>>, Fault>
    ensures { TakesOut result h.old.value h.new.value }
{
    match borrow(alloc, h) {
        Some(slot) => Ok(slot),
        None => Err(Fault::Empty),
    }
}

/// Drops what a handle has. Then the handle is null.
fn free(alloc: Global, h: &mut Handle) -> Result<u32, Fault>
    ensures { Frees result h.old.value h.new.value }
{
    match take_out(alloc, h) {
        Ok(_dropped) => Ok(0),
        Err(why) => Err(why),
    }
}

/// Frees what a handle has. Then the handle is null. A span that a hand has open stays open for good: on a head/tail
/// sync side nobody else can start then, and on a multi side nobody can settle after it.
#[unsafe(no_mangle)]
pub extern "C" fn hkx_free(alloc: Global, h: &mut Handle) -> i64
    ensures { Answers result (λ outcome. Frees outcome h.old.value h.new.value) }
{
    answer(free(alloc, h))
}
