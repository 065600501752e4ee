//! What a world contains when it is opened.

ghost use Rattle.std.specs.Prelude.{◌≡◌, length, map, IfOk};
ghost use Rattle.ringcore_laws.specs.History.{buffers_given};
ghost use Rattle.ringcore_laws.specs.declared.protocol.Place.TheVariants.{Held};
ghost use Rattle.ringcore.specs.Opening.{AreFresh, AreGiven};
ghost use Rattle.ringcore.specs.Planned.{plans_in, rings_in};

use crate::member::Member;
use crate::one_ring::OneRing;
use crate::ring::{PlannedRing, Ring, Words};
use geom::RingPlan;
use ringcore_laws::Place;
use std::alloc::{AllocError, Global};

/// An empty ring for each plan.
pub fn fresh_rings(alloc: Global, plans: &[RingPlan]) -> Result<Vec<PlannedRing>, AllocError>
    ensures count { IfOk result (λ rings. length (rings_in rings.items) ≡ length plans.now) }
    ensures plans { IfOk result (λ rings. plans_in rings.items ≡ plans.now) }
    ensures fresh { IfOk result (λ rings. AreFresh plans.now (rings_in rings.items)) }
{
    let mut rings = Vec::new(alloc);
    for k in 0..plans.len() {
        let plan = plans[k];
        let queue = OneRing::new(alloc, plan.geometry)?;
        rings.push(PlannedRing {
            plan,
            ring: Ring {
                put: Words { head: 0, tail: 0 },
                take: Words { head: 0, tail: 0 },
                queue,
            },
        })?;
    }
    Ok(rings)
}

/// The actors, each with as many buffers as gifts name it.
pub fn given_members(
    alloc: Global,
    actors: usize,
    gifts: &[usize],
) -> Result<Vec<Member>, AllocError>
    ensures count { IfOk result (λ members. length members.items ≡ actors) }
    ensures given { IfOk result (λ members. AreGiven gifts.now members.items) }
{
    let mut members = Vec::new(alloc);
    for actor in 0..actors {
        let count = given_to(gifts, actor);
        members.push(Member {
            number: actor,
            count,
            span: None,
            observed: None,
        })?;
    }
    Ok(members)
}

/// How many buffers have a gift that names this actor.
fn given_to(gifts: &[usize], actor: usize) -> u64
    ensures { result ≡ length (buffers_given gifts.now actor) }
{
    let mut count = 0;
    for b in 0..gifts.len() {
        if gifts[b] == actor {
            count += 1;
        }
    }
    count
}

/// Each buffer is held by the actor its gift names.
pub fn given_places(alloc: Global, gifts: &[usize]) -> Result<Vec<Place>, AllocError>
    ensures { IfOk result (λ places. places.items ≡ map (λ g. Held g) gifts.now) }
{
    let mut places = Vec::with_capacity(alloc, gifts.len())?;
    for b in 0..gifts.len() {
        places.push(Place::Held(gifts[b]))?;
    }
    Ok(places)
}
