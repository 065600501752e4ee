//! Puts of whole lists, as room becomes available.
ghost use Rattle.std.specs.Prelude.{◌≡◌, ◌<◌, ℕ, [], length, IfOk, IfErr, false};
ghost use Rattle.fabric.specs.Hands.{IsHandOf, OnRing, rings_of, view};
ghost use Rattle.fabric.specs.Settles.{AreYours};
ghost use Rattle.fabric.specs.Views.{IsWornAt};
ghost use Rattle.fabric.specs.declared.hand.StartFault.TheVariants.{NoRoom};
ghost use Rattle.ringapi.specs.declared.answers.Refusal.TheVariants.{Start};
ghost use Rattle.stages.specs.Passing.{Puts};

use crate::threads::idle::Idle;
use burst::{Burst, Tagged};
use fabric::{Fabric, Hand, StartFault, Stored};
use ringapi::{PutAnswer, Refusal, put_own_burst_from};
use std::sync::Wait;
use std::time::Clock;

/// Whether a put was refused only because there was no room.
fn wants_room(refusal: Refusal) -> bool
    ensures { result ≡ false → (left : ℕ) → refusal ≡ Start (NoRoom left) → ⊥ }
{
    match refusal {
        Refusal::Start(StartFault::NoRoom(_)) => true,
        _ => false,
    }
}

/// Puts all items of a list, from its front, as many at a time as there is room for. Requires: the hand may put them.
/// Errors: only if the ring is worn; the list then has the items that were not put.
pub fn put_all<T: Tagged, const N: usize, S: Stored<T>, R: Wait + Clock>(
    rt: &R,
    f: &Fabric<T, N, S>,
    mut hand: Hand<T, S>,
    ring: usize,
    list: &mut Burst<T, N>,
) -> Result<Hand<T, S>, Hand<T, S>>
    requires hand { IsHandOf f.now hand }
    requires ring { ring < length (rings_of f.now) }
    requires yours { OnRing f.now ring (λ plan. AreYours T.numbers plan (view hand) list.old) }
    ensures done { IfOk result (λ h. IsHandOf f.now h × (list.new ≡ [])
        × Puts ring (view hand).party.settled (view h).party.settled list.old) }
    ensures refused { IfErr result (λ h. IsHandOf f.now h × IsWornAt N (view h)) }
{
    let idle = Idle::new();
    for _ in rt.forever() {
        if list.len() == 0 {
            return Ok(hand);
        }
        match put_own_burst_from(rt, f, hand, ring, list) {
            PutAnswer::Done(back, _) => hand = back,
            PutAnswer::Refused(back, refusal) => {
                if !wants_room(refusal) {
                    return Err(back);
                }
                hand = back;
                idle.wait(rt);
            }
            PutAnswer::Open(_, _) => unreachable!(),
        }
    }
    unreachable!()
}
