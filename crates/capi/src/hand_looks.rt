//! The exports that show what a hand has open and what its last call left.
ghost use Rattle.std.specs.Prelude.{◌≡◌};
ghost use Rattle.capi.specs.Codes.{Answers};
ghost use Rattle.capi.specs.HandCalls.{AtHand};
ghost use Rattle.capi.specs.MemberCalls.{TellsLeft, TellsSpan, span_kind};

use crate::handle::Handle;
use crate::keeping::{borrow, with_object};
use crate::object::Object;
use crate::rings::{Fault, answer, clamped};
use fabric::OpenSpan;
use std::alloc::Global;

/// What a member has open.
fn kind(span: OpenSpan) -> u32
    ensures { result ≡ span_kind span }
{
    match span {
        OpenSpan::Idle => 0,
        OpenSpan::Put(_) => 1,
        OpenSpan::Take(_) => 2,
        OpenSpan::Held(_) => 3,
    }
}

/// 0 if the hand has no open span, 1 if it has one of a put, 2 of a take, 3 while it holds a take side.
#[unsafe(no_mangle)]
pub extern "C" fn hkx_hand_span(alloc: Global, h: &mut Handle) -> i64
    ensures { Answers result (AtHand h.old.value h.new.value TellsSpan) }
{
    with_object!(alloc, h, Hand(member) => Ok(kind(member.port.span())))
}

/// How many more positions were free, or words queued, when the last call looked.
#[unsafe(no_mangle)]
pub extern "C" fn hkx_hand_left(alloc: Global, h: &mut Handle) -> i64
    ensures { Answers result (AtHand h.old.value h.new.value TellsLeft) }
{
    with_object!(alloc, h, Hand(member) => Ok(clamped(member.left)))
}
