//! New rings with their first member.
ghost use Rattle.std.specs.Prelude.{◌≡◌, ◌⊎◌, [], IfErr, IfOk};
ghost use Rattle.fabric_laws.specs.Changes.{newborn};
ghost use Rattle.fabric_laws.specs.Rule.{all_parts};
ghost use Rattle.fabric.specs.Hands.{IsHandOf, rings_of, view};
ghost use Rattle.fabric.specs.Making.{WordsMayStand};
ghost use Rattle.capi.specs.Members.{ArePlain};
ghost use Rattle.capi.specs.Openings.{IsNewHand, RefusesRings};
ghost use Rattle.capi.specs.RingCalls.{member_view};
ghost use Rattle.capi.specs.declared.rings.fault.Fault.TheVariants as fault;

use crate::rings::end::Ends;
use crate::rings::fault::Fault;
use crate::rings::member::{MAX_WORDS, Member, WordSpares};
use crate::rings::opening::{Asked, MAX_RINGS, plans};
use crate::rings::word64::Word64;
use burst::Slot;
use fabric::{Fabric, HandInPlace, OpenFault, Opened};
use geom::RingPlan;
use ringapi::Port;
use std::alloc::Global;
use std::sync::Arc;

/// A fabric with these rings, all empty. Errors: `Plan`; `Memory`.
fn fabric_of(
    alloc: Global,
    plans: Vec<RingPlan>,
) -> Result<Opened<Word64, 4095, Slot<Word64>>, Fault>
    ensures made { IfOk result (λ o. (rings_of o.fabric ≡ plans.items) × IsHandOf o.fabric o.hand
        × (view o.hand ≡ newborn plans.items 0 all_parts [])) }
    ensures refused { IfErr result
        (λ why. ((why ≡ fault.Plan) × (WordsMayStand plans.items 0 4095 → ⊥)) ⊎ (why ≡ fault.Memory)) }
{
    match Fabric::of_words(alloc, plans, 0, Vec::new(alloc)) {
        Ok(opened) => Ok(opened),
        Err(OpenFault::BadPlan(_)) => Err(Fault::Plan),
        Err(OpenFault::Memory(_)) => Err(Fault::Memory),
        // There are no buffers, so their numbers are never at fault.
        Err(OpenFault::BadTags(_)) => Err(Fault::Memory),
    }
}

/// The first member of new rings.
fn first_member(
    alloc: Global,
    opened: Opened<Word64, 4095, Slot<Word64>>,
    shown: Box<[Word64; MAX_WORDS]>,
) -> Result<Member, Fault>
    requires of { IsHandOf opened.fabric opened.hand }
    requires plain { ArePlain (rings_of opened.fabric) }
    ensures rings { IfOk result (λ m. m.port.fabric.value ≡ opened.fabric) }
    ensures view { IfOk result (λ m. member_view m ≡ view opened.hand) }
    ensures refused { IfErr result (λ why. why ≡ fault.Memory) }
{
    let Ok(spares) = WordSpares::new(alloc, &opened.fabric) else {
        return Err(Fault::Memory);
    };
    let Ok(spares) = Arc::new(alloc, spares) else {
        return Err(Fault::Memory);
    };
    let Ok(fabric) = Arc::new(alloc, opened.fabric) else {
        return Err(Fault::Memory);
    };
    let hand = HandInPlace::of(opened.hand);
    let put_at = fabric.place(0);
    let take_at = put_at;
    let ends = Ends::closed(fabric.place(0));
    let port = Port { fabric, hand };
    Ok(Member {
        port,
        shown,
        left: 0,
        put_at,
        take_at,
        ends,
        spares,
    })
}

/// Rings as C asked for them, all empty. Errors: `Plan`; `Memory`.
pub fn open(alloc: Global, asked: &[Asked]) -> Result<Member, Fault>
    ensures made { IfOk result (λ m. IsNewHand asked.now m) }
    ensures refused { IfErr result (λ why. RefusesRings asked.now why) }
{
    if asked.len() > MAX_RINGS {
        return Err(Fault::Plan);
    }
    let plans = plans(alloc, asked)?;
    let Ok(shown) = Box::new(alloc, [Word64 { bits: 0 }; MAX_WORDS]) else {
        return Err(Fault::Memory);
    };
    match fabric_of(alloc, plans) {
        Ok(opened) => first_member(alloc, opened, shown),
        Err(why) => Err(why),
    }
}
