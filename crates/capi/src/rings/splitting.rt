//! Splitting: a hand for another thread.
ghost use Rattle.std.specs.Prelude.{◌≡◌, IfErr, IfOk};
ghost use Rattle.fabric.specs.Hands.{IsHandOf};
ghost use Rattle.fabric.specs.declared.hand.in_place.OpenSpan.TheVariants as open_span;
ghost use Rattle.ringapi.specs.Spares.{IsSpareOf};
ghost use Rattle.capi.specs.RingCalls.{LikeMember, RefusesSplit, Splits};
ghost use Rattle.capi.specs.Spare.{RefusesSpare};

use crate::rings::end::Ends;
use crate::rings::fault::Fault;
use crate::rings::member::{MAX_WORDS, Member};
use crate::rings::word64::Word64;
use burst::Slot;
use fabric::{Hand, HandInPlace, OpenSpan};
use ringapi::{Port, SpareFault};
use std::alloc::Global;
use std::sync::Arc;

/// The fault if there is no hand for another thread.
pub(crate) fn spare_fault(why: SpareFault) -> Fault
    ensures { RefusesSpare result }
{
    match why {
        SpareFault::Busy => Fault::Again,
        SpareFault::Empty => Fault::Parts,
        SpareFault::Memory => Fault::Memory,
    }
}

/// A hand for another thread: a spare one, or if there is none yet, half of this one's parts become spare ones.
fn draw(alloc: Global, member: Member) -> (Member, Result<Hand<Word64, Slot<Word64>>, SpareFault>)
    requires idle { member.port.hand.span ≡ open_span.Idle }
    ensures like { LikeMember member result.0 }
    ensures given { IfOk result.1 (IsSpareOf member.port.fabric.value) }
{
    let Member {
        port,
        shown,
        left,
        put_at,
        take_at,
        ends,
        spares,
    } = member;
    let Port { fabric, hand } = port;
    let (hand, drawn) = spares.split(alloc, &fabric, hand.into_hand());
    let port = Port {
        fabric,
        hand: HandInPlace::of(hand),
    };
    let member = Member {
        port,
        shown,
        left,
        put_at,
        take_at,
        ends,
        spares,
    };
    (member, drawn)
}

/// A second member on the same rings, for another thread. Errors: `Open`, `Memory`, `Again`, `Parts`.
pub fn split(alloc: Global, member: Member) -> (Member, Result<Member, Fault>)
    ensures split { IfOk result.1 (λ other. Splits member result.0 other) }
    ensures refused { IfErr result.1 (λ why. LikeMember member result.0 × RefusesSplit member why) }
{
    match member.port.span() {
        OpenSpan::Idle => (),
        _ => return (member, Err(Fault::Open)),
    }
    let Ok(shown) = Box::new(alloc, [Word64 { bits: 0 }; MAX_WORDS]) else {
        return (member, Err(Fault::Memory));
    };
    let Ok(fabric) = Arc::try_clone(&member.port.fabric) else {
        return (member, Err(Fault::Memory));
    };
    let Ok(spares) = Arc::try_clone(&member.spares) else {
        return (member, Err(Fault::Memory));
    };
    let (member, drawn) = draw(alloc, member);
    match drawn {
        Ok(hand) => {
            let port = Port {
                fabric,
                hand: HandInPlace::of(hand),
            };
            let ends = Ends::closed(member.put_at);
            let second = Member {
                port,
                shown,
                left: 0,
                put_at: member.put_at,
                take_at: member.take_at,
                ends,
                spares,
            };
            (member, Ok(second))
        }
        Err(why) => (member, Err(spare_fault(why))),
    }
}
