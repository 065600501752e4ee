//! A thread's access to the rings of a run: its hand, which is kept here between calls.
ghost use Rattle.std.specs.Prelude.{◌≡◌, ◌<◌, ◌+◌, ◌↔◌, ℕ, [], None, Some, IfOk, IfErr, true};
ghost use Rattle.std.specs.List.{flat_map};
ghost use Rattle.std.specs.Option.{is_some};
ghost use Rattle.burst.specs.Numbers.{AreDistinct};
ghost use Rattle.fabric.specs.Hands.{IsHandOf, rings_of};
ghost use Rattle.ringcore_laws.specs.FreeRings.{AreSingle};
ghost use Rattle.ringcore_laws.specs.Sound.{occurrences_in};
ghost use Rattle.stages.specs.Passing.{AreRings};
ghost use Rattle.stages.specs.Access.{GivesUp, IsOf, TakesNone};
ghost use Rattle.stages.specs.Custody.{HoldsAll};

use crate::stage_fault::StageFault;
use crate::threads::idle::Idle;
use crate::threads::rings::{FREE, SPAN};
use burst::{Burst, Tagged};
use fabric::{Fabric, Hand, StartFault, Stored};
use ringapi::{
    PutAnswer, Refusal, TakeAnswer, put_own_burst_from, take_bulk_into, take_burst_into,
};
use std::sync::Wait;
use std::time::Clock;

/// A thread's access to the rings of a run.
#[derive(Drop)]
pub(crate) struct RingAccess<'f, T: Tagged, S: Stored<T> = Option<T>> {
    fabric: &'f Fabric<T, SPAN, S>,
    hand: Option<Hand<T, S>>,
    pub ghost here: { is_some hand ≡ true },
    pub ghost of: { IsOf fabric.now hand },
    pub ghost rings: { AreRings (rings_of fabric.now) },
}

/// Takes the hand from its place, for a call on a ring.
fn take_hand<T: Tagged, S: Stored<T>>(place: &mut Option<Hand<T, S>>) -> Hand<T, S>
    requires here { is_some place.old ≡ true }
    ensures { place.old ≡ Some result }
{
    match place.take() {
        Some(hand) => hand,
        None => unreachable!(),
    }
}

/// Why a put can't continue, unless it waits for room.
fn fault_of(refusal: Refusal) -> Option<StageFault>
    ensures room { (n : ℕ) → refusal ≡ Refusal.Start (StartFault.NoRoom n) → result ≡ None }
    ensures worn { refusal ≡ Refusal.Start StartFault.Worn ↔ result ≡ Some StageFault.Worn }
{
    match refusal {
        Refusal::Start(StartFault::NoRoom(_)) => None,
        Refusal::Start(StartFault::Worn) => Some(StageFault::Worn),
        _ => Some(StageFault::Window),
    }
}

/// What a refused take means to a caller that takes what is there.
fn emptiness(fault: StartFault) -> Result<(), StageFault>
    ensures { IfErr result (λ e. (e ≡ StageFault.Worn) × (fault ≡ StartFault.Worn)) }
{
    match fault {
        StartFault::Worn => Err(StageFault::Worn),
        _ => Ok(()),
    }
}

impl<'f, T: Tagged, S: Stored<T>> RingAccess<'f, T, S> {
    /// Access with this hand.
    pub(crate) fn new(f: &'f Fabric<T, SPAN, S>, hand: Hand<T, S>) -> RingAccess<'f, T, S>
        requires hand { IsHandOf f.now hand }
        requires rings { AreRings (rings_of f.now) }
    {
        RingAccess {
            fabric: f,
            hand: Some(hand),
        }
    }

    /// Takes `n` free segments into an empty list, or none if their ring has fewer. Returns whether it took them.
    /// Errors: the ring is worn.
    pub(crate) fn get<R: Wait>(
        &mut self,
        rt: &R,
        n: usize,
        into: &mut Burst<T, SPAN>,
    ) -> Result<bool, StageFault>
        requires empty { into.old ≡ [] }
        ensures apart { AreDistinct (flat_map T.numbers into.new) }
        ensures kept { (others : ℕ → ℕ) → HoldsAll T.numbers self.old.hand others
            → HoldsAll T.numbers self.new.hand (λ b. occurrences_in T.numbers b into.new + others b) }
    {
        let hand = take_hand(&mut self.hand);
        match take_bulk_into(rt, self.fabric, hand, FREE, n, into) {
            TakeAnswer::Done(hand, _) => {
                self.hand = Some(hand);
                Ok(true)
            }
            TakeAnswer::Refused(hand, fault) => {
                self.hand = Some(hand);
                emptiness(fault)?;
                Ok(false)
            }
            TakeAnswer::Open(_, _) => unreachable!(),
        }
    }

    /// Whether the hand may put all packets of a list on a ring: each carries buffers that it holds, and no two of them
    /// the same one.
    pub(crate) fn may_send(&mut self, ring: usize, list: &Burst<T, SPAN>) -> bool
        requires ring { ring < 3 }
        ensures yours { result ≡ true → HoldsAll T.numbers self.new.hand (λ b. occurrences_in T.numbers b list.now) }
        ensures single { result ≡ true → ring ≡ 0 → AreSingle T.numbers list.now }
        ensures kept { (others : ℕ → ℕ) → HoldsAll T.numbers self.old.hand others
            → HoldsAll T.numbers self.new.hand others }
    {
        let mut hand = take_hand(&mut self.hand);
        let may = hand.may_put(self.fabric, ring, list);
        self.hand = Some(hand);
        may
    }

    /// Puts all packets of a list on a ring, as room becomes available. Requires: the hand may put them. Errors: the
    /// ring is worn.
    pub(crate) fn send<R: Wait + Clock>(
        &mut self,
        rt: &R,
        ring: usize,
        list: &mut Burst<T, SPAN>,
    ) -> Result<(), StageFault>
        requires ring { ring < 3 }
        requires yours { HoldsAll T.numbers self.old.hand (λ b. occurrences_in T.numbers b list.old) }
        requires single { ring ≡ 0 → AreSingle T.numbers list.old }
        ensures left { IfOk result (λ _. list.new ≡ []) }
        ensures kept { (others : ℕ → ℕ)
            → HoldsAll T.numbers self.old.hand (λ b. occurrences_in T.numbers b list.old + others b)
            → HoldsAll T.numbers self.new.hand (λ b. occurrences_in T.numbers b list.new + others b) }
        ensures exact { IfErr result (λ e. GivesUp T.numbers self.new.fabric.now ring self.new.hand list.new e) }
    {
        let idle = Idle::new();
        for _ in rt.forever() {
            if list.len() == 0 {
                return Ok(());
            }
            let hand = take_hand(&mut self.hand);
            match put_own_burst_from(rt, self.fabric, hand, ring, list) {
                PutAnswer::Done(hand, _) => self.hand = Some(hand),
                PutAnswer::Refused(hand, refusal) => {
                    self.hand = Some(hand);
                    match fault_of(refusal) {
                        None => idle.wait(rt),
                        Some(fault) => return Err(fault),
                    }
                }
                PutAnswer::Open(_, _) => unreachable!(),
            }
        }
        unreachable!()
    }

    /// Takes at most `n` packets from a ring into an empty list, as many as there are; none if there are none.
    pub(crate) fn receive<R: Wait>(
        &mut self,
        rt: &R,
        ring: usize,
        n: usize,
        into: &mut Burst<T, SPAN>,
    ) -> Result<(), StageFault>
        requires ring { ring < 3 }
        requires empty { into.old ≡ [] }
        ensures kept { (others : ℕ → ℕ) → HoldsAll T.numbers self.old.hand others
            → HoldsAll T.numbers self.new.hand (λ b. occurrences_in T.numbers b into.new + others b) }
        ensures exact { IfErr result (λ e. TakesNone T.numbers self.new.fabric.now ring n self.new.hand into.new e) }
    {
        let hand = take_hand(&mut self.hand);
        match take_burst_into(rt, self.fabric, hand, ring, n, into) {
            TakeAnswer::Done(hand, _) => {
                self.hand = Some(hand);
                Ok(())
            }
            TakeAnswer::Refused(hand, fault) => {
                self.hand = Some(hand);
                emptiness(fault)
            }
            TakeAnswer::Open(_, _) => unreachable!(),
        }
    }
}
