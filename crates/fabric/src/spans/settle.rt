//! Settling a span: its slots are filled, or the rest of a take is put back, and one step on a word returns them to the
//! ring.
ghost use Rattle.std.specs.Prelude.{◌≡◌, ◌==◌, ◌+◌, ◌-◌, ◌<◌, ◌≤◌, ◌++◌, List, [], length, map, take, drop, replicate};
ghost use Rattle.std.specs.Prelude.{None, Some, IfNone, IfSome, IfOk, IfErr, true, false};
ghost use Rattle.std.specs.List.{flat_map, list_all};
ghost use Rattle.burst.specs.Numbers.{AreDistinct};
ghost use Rattle.geom.specs.Plan.{mode_of};
ghost use Rattle.geom.specs.declared.plan.Mode.TheVariants.{Multi};
ghost use Rattle.geom.specs.declared.plan.Side.TheVariants.{Put, Take};
ghost use Rattle.ringcore_laws.specs.FreeRings.{AreSingle};
ghost use Rattle.ringcore_laws.specs.Moves.{Owns};
ghost use Rattle.fabric_laws.specs.Changes.{missed, settled};
ghost use Rattle.fabric_laws.specs.Kinds.{IsHeldOnce, IsReady};
ghost use Rattle.fabric_laws.specs.Refusals.{WasEarlier};
ghost use Rattle.burst.specs.Items.{somes};
ghost use Rattle.fabric.specs.Rings.{IsSameSeat, IsSeated, slots_of};
ghost use Rattle.fabric.specs.Hands.{rings_of};
ghost use Rattle.fabric.specs.Owned.{all_there, cleared};
ghost use Rattle.fabric.specs.Refused.{IsUnsettled};
ghost use Rattle.fabric.specs.Settles.{HoldsLess, HoldsMore, IsCount};
ghost use Rattle.fabric.specs.declared.hand.SettleFault.TheVariants.{NotYours};
ghost use Rattle.fabric.specs.Slots.{values};
ghost use Rattle.fabric.specs.Views.{span_of};

use crate::hand::owned::Owned;
use crate::hand::{SettleFault, Share};
use crate::items::{Items, PutItems};
use crate::ring::{Positions, Ring};
use crate::slots::skip;
use crate::stored::{Cell, Stored};
use atomic_table::Seat;
use burst::Tagged;
use fabric_laws::View;
use geom::{Mode, Side};

impl<T: Tagged, const N: usize, S: Stored<T>> Ring<'_, T, N, S> {
    /// Whether `k` positions of a side's span may be settled.
    #[inline(always)]
    fn is_count(&self, side: Side, k: usize, count: usize) -> bool
        ensures good { result ≡ true → IsCount (mode_of self.now.shape.now.plan side) k count }
        ensures bad { result ≡ false → IsCount (mode_of self.now.shape.now.plan side) k count → ⊥ }
    {
        match self.mode(side) {
            Mode::Multi => k == count,
            Mode::Hts => k <= count,
        }
    }

    /// Clears the buffers of items that may be put here, as `PutItems::disown` does.
    #[inline(always)]
    pub(crate) fn disown<I: PutItems<T>>(&self, items: &I, owned: &mut Owned) -> bool
        ensures mine { result ≡ true → (owned.new ≡ cleared owned.old (flat_map T.numbers (I.items items.now)))
            × (all_there owned.old (flat_map T.numbers (I.items items.now)) ≡ true)
            × (self.now.shape.now.plan.free ≡ true
            → list_all (λ x. length (T.numbers x) == 1) (I.items items.now) ≡ true) }
        ensures kept { result ≡ false → owned.new ≡ owned.old }
        ensures other { result ≡ false → all_there owned.old (flat_map T.numbers (I.items items.now)) ≡ true
            → (self.now.shape.now.plan.free ≡ true)
            × (list_all (λ x. length (T.numbers x) == 1) (I.items items.now) ≡ false) }
    {
        items.disown(self.free, owned)
    }

    /// Settles the first `k` positions of the open span of a side, in one step on a word. If an earlier span of a multi
    /// side isn't settled, nothing is done, and the tail found is returned.
    #[inline(always)]
    pub(crate) fn commit(
        &self,
        seat: &mut Seat<Cell<T, S>, View<T>>,
        side: Side,
        range: Positions,
        k: usize,
    ) -> Option<u64>
        requires seat { IsSeated self.now seat.old }
        requires count { IsCount (mode_of self.now.shape.now.plan side) k range.count }
        requires ready { (items : List T) × (length items ≡ k)
            × IsReady T.numbers (rings_of self.now.fabric.now) self.now.shape.now.plan
            (span_of self.now.index side range.start range.count) items seat.old.me }
        ensures seat { IsSameSeat seat.old seat.new }
        ensures done { IfNone result ((items : List T) → length items ≡ k
            → let span = span_of self.now.index side range.start range.count in
            IsReady T.numbers (rings_of self.now.fabric.now) self.now.shape.now.plan span items seat.old.me
            → (seat.new.me.0 ≡ settled span items seat.old.me.0) × (seat.new.me.1 ≡ [])
            × IsHeldOnce T.numbers seat.new.me.0.pool seat.new.me.0.party) }
        ensures early { IfSome result (λ x. (mode_of self.now.shape.now.plan side ≡ Multi) × (x < range.start)
            × (seat.new.me.0 ≡ missed x seat.old.me.0) × (seat.new.me.1 ≡ seat.old.me.1)) }
        ensures true_refusal { IfSome result
            (λ x. WasEarlier T.numbers (span_of self.now.index side range.start range.count) seat.old.me.0 x) }
    {
        match self.mode(side) {
            Mode::Hts => {
                self.store(seat, side, range.start, k);
                None
            }
            Mode::Multi => {
                let found = self.settle(seat, side, range.start, range.count);
                if found == range.start {
                    None
                } else {
                    Some(found)
                }
            }
        }
    }

    /// Moves the items into the first slots of a put span.
    #[inline(always)]
    pub(crate) fn offer<I: PutItems<T>>(
        &self,
        seat: &mut Seat<Cell<T, S>, View<T>>,
        range: Positions,
        items: &mut I,
    )
        requires table { seat.old.table_id ≡ self.now.fabric.now.table.shared.table_id }
        requires fits { length (I.items items.old) ≤ range.count }
        requires slots { seat.old.me.1 ≡ slots_of self.now range.start (replicate range.count None) }
        ensures seat { IsSameSeat seat.old seat.new × (seat.new.me.0 ≡ seat.old.me.0) }
        ensures slots { seat.new.me.1 ≡ slots_of self.now range.start
            (map Some (I.items items.old) ++ replicate (range.count - length (I.items items.old)) None) }
        ensures left { I.items items.new ≡ I.left (I.items items.old) 0 }
    {
        let k = items.len();
        items.fill(&self.fabric.table.shared, self.shape, seat, range.start, 0);
        skip(seat, range.count - k);
    }

    /// Publishes items at the first positions of a put span. If an earlier span of a multi side isn't settled, the
    /// items come back, and the tail found is returned.
    #[inline(always)]
    fn publish<I: PutItems<T>>(
        &self,
        seat: &mut Seat<Cell<T, S>, View<T>>,
        range: Positions,
        items: &mut I,
    ) -> Option<u64>
        requires seat { IsSeated self.now seat.old }
        requires count { IsCount self.now.shape.now.plan.put (length (I.items items.old)) range.count }
        requires span { seat.old.me.0.party.span ≡ Some (span_of self.now.index Put range.start range.count) }
        requires owned { Owns T.numbers seat.old.me.0.party (I.items items.old) }
        requires single { self.now.shape.now.plan.free ≡ true → AreSingle T.numbers (I.items items.old) }
        requires slots { seat.old.me.1 ≡ slots_of self.now range.start (replicate range.count None) }
        ensures seat { IsSameSeat seat.old seat.new }
        ensures done { IfNone result ((seat.new.me.0
            ≡ settled (span_of self.now.index Put range.start range.count) (I.items items.old) seat.old.me.0)
            × (seat.new.me.1 ≡ []) × IsHeldOnce T.numbers seat.new.me.0.pool seat.new.me.0.party
            × (I.items items.new ≡ I.left (I.items items.old) 0)) }
        ensures early { IfSome result (λ x. (self.now.shape.now.plan.put ≡ Multi) × (x < range.start)
            × (seat.new.me.0 ≡ missed x seat.old.me.0) × (seat.new.me.1 ≡ seat.old.me.1)
            × (I.items items.new ≡ I.items items.old)) }
        ensures true_refusal { IfSome result
            (λ x. WasEarlier T.numbers (span_of self.now.index Put range.start range.count) seat.old.me.0 x) }
    {
        let k = items.len();
        self.offer(seat, range, items);
        let Some(found) = self.commit(seat, Side::Put, range, k) else {
            return None;
        };
        items.refill(
            &self.fabric.table.shared,
            self.shape,
            seat,
            range.start,
            range.count,
        );
        Some(found)
    }

    /// Tries once to publish items at the first positions of a put span. At a refusal the span stays open.
    #[inline(always)]
    pub(crate) fn settle_put<I: PutItems<T>>(
        &self,
        share: &mut Share<T, S>,
        range: Positions,
        items: &mut I,
    ) -> Result<(), SettleFault>
        requires seat { IsSeated self.now share.old.seat }
        requires span { share.old.seat.me.0.party.span ≡ Some (span_of self.now.index Put range.start range.count) }
        requires slots { share.old.seat.me.1 ≡ slots_of self.now range.start (replicate range.count None) }
        ensures seat { IsSameSeat share.old.seat share.new.seat }
        ensures done { IfOk result (λ _. IsCount self.now.shape.now.plan.put (length (I.items items.old)) range.count
            × (share.new.seat.me.0 ≡ settled (span_of self.now.index Put range.start range.count) (I.items items.old)
            share.old.seat.me.0) × (share.new.seat.me.1 ≡ []) × (I.items items.new ≡ I.left (I.items items.old) 0)) }
        ensures refused { IfErr result (λ e. (share.new.seat.me.1 ≡ share.old.seat.me.1)
            × (I.items items.new ≡ I.items items.old) × IsUnsettled T.numbers self.now.shape.now.plan
            (span_of self.now.index Put range.start range.count) (length (I.items items.old)) (I.items items.old)
            share.old.seat.me.0 share.new.seat.me.0 e) }
        ensures owned { IfOk result
            (λ _. HoldsLess T.numbers share.old.seat.me.0 (I.items items.old) share.new.seat.me.0) }
    {
        let count = items.len();
        if !self.is_count(Side::Put, count, range.count) {
            return Err(SettleFault::BadCount);
        }
        if !self.disown(items, &mut share.owned) {
            return Err(SettleFault::NotYours);
        }
        let Some(tail) = self.publish(&mut share.seat, range, items) else {
            return Ok(());
        };
        items.own(count, &mut share.owned);
        Err(SettleFault::NotYet(tail))
    }

    /// Tries once to publish the first `k` items of a list alone; the others stay in it. At a refusal the span stays
    /// open.
    #[inline(always)]
    pub(crate) fn settle_put_first<I: PutItems<T>>(
        &self,
        share: &mut Share<T, S>,
        range: Positions,
        k: usize,
        items: &mut I,
    ) -> Result<(), SettleFault>
        requires fits { k ≤ length (I.items items.old) }
        requires seat { IsSeated self.now share.old.seat }
        requires span { share.old.seat.me.0.party.span ≡ Some (span_of self.now.index Put range.start range.count) }
        requires slots { share.old.seat.me.1 ≡ slots_of self.now range.start (replicate range.count None) }
        ensures seat { IsSameSeat share.old.seat share.new.seat }
        ensures done { IfOk result (λ _. IsCount self.now.shape.now.plan.put k range.count
            × (share.new.seat.me.0 ≡ settled (span_of self.now.index Put range.start range.count)
            (take k (I.items items.old)) share.old.seat.me.0) × (share.new.seat.me.1 ≡ [])
            × (I.items items.new ≡ I.after (I.items items.old) k)) }
        ensures refused { IfErr result (λ e. (share.new.seat.me.1 ≡ share.old.seat.me.1)
            × (I.items items.new ≡ I.items items.old) × IsUnsettled T.numbers self.now.shape.now.plan
            (span_of self.now.index Put range.start range.count) k (take k (I.items items.old))
            share.old.seat.me.0 share.new.seat.me.0 e) }
        ensures owned { IfOk result
            (λ _. HoldsLess T.numbers share.old.seat.me.0 (take k (I.items items.old)) share.new.seat.me.0) }
    {
        if k == items.len() {
            return self.settle_put(share, range, items);
        }
        self.settle_part(share, range, k, items)
    }

    /// Tries once to publish the first `k` items of a list, if there are more.
    #[inline(always)]
    fn settle_part<I: PutItems<T>>(
        &self,
        share: &mut Share<T, S>,
        range: Positions,
        k: usize,
        items: &mut I,
    ) -> Result<(), SettleFault>
        requires fits { k ≤ length (I.items items.old) }
        requires at_most { length (I.items items.old) ≤ I.most }
        requires seat { IsSeated self.now share.old.seat }
        requires span { share.old.seat.me.0.party.span ≡ Some (span_of self.now.index Put range.start range.count) }
        requires slots { share.old.seat.me.1 ≡ slots_of self.now range.start (replicate range.count None) }
        ensures seat { IsSameSeat share.old.seat share.new.seat }
        ensures done { IfOk result (λ _. IsCount self.now.shape.now.plan.put k range.count
            × (share.new.seat.me.0 ≡ settled (span_of self.now.index Put range.start range.count)
            (take k (I.items items.old)) share.old.seat.me.0) × (share.new.seat.me.1 ≡ [])
            × (I.items items.new ≡ I.after (I.items items.old) k)) }
        ensures refused { IfErr result (λ e. (share.new.seat.me.1 ≡ share.old.seat.me.1)
            × (I.items items.new ≡ I.items items.old) × IsUnsettled T.numbers self.now.shape.now.plan
            (span_of self.now.index Put range.start range.count) k (take k (I.items items.old))
            share.old.seat.me.0 share.new.seat.me.0 e) }
        ensures owned { IfOk result
            (λ _. HoldsLess T.numbers share.old.seat.me.0 (take k (I.items items.old)) share.new.seat.me.0) }
    {
        let rest = items.part(k);
        match self.settle_put(share, range, items) {
            Ok(()) => {
                items.rejoin(rest);
                Ok(())
            }
            Err(fault) => {
                items.rejoin(rest);
                Err(fault)
            }
        }
    }

    /// Puts the items after the first `k` of a take back into their slots.
    #[inline(always)]
    fn keep<I: Items<T>>(
        &self,
        seat: &mut Seat<Cell<T, S>, View<T>>,
        range: Positions,
        k: usize,
        items: &mut I,
    )
        requires table { seat.old.table_id ≡ self.now.fabric.now.table.shared.table_id }
        requires whole { length (I.items items.old) ≡ range.count }
        requires fits { k ≤ length (I.items items.old) }
        requires slots { seat.old.me.1 ≡ slots_of self.now range.start (replicate range.count None) }
        ensures seat { IsSameSeat seat.old seat.new × (seat.new.me.0 ≡ seat.old.me.0) }
        ensures slots { seat.new.me.1 ≡ slots_of self.now range.start
            (replicate k None ++ map Some (drop k (I.items items.old))) }
        ensures left { I.items items.new ≡ I.left (I.items items.old) k }
        ensures front { take k (I.items items.new) ≡ take k (I.items items.old) }
        ensures all { k ≡ length (I.items items.old) → I.items items.new ≡ I.items items.old }
        ensures beside { (before : I) → I.beside before items.old → I.beside before items.new }
    {
        skip(seat, k);
        items.fill(
            &self.fabric.table.shared,
            self.shape,
            seat,
            range.start + k as u64,
            k,
        );
    }

    /// Dequeues the items at the first `k` positions of a take span. If an earlier span of a multi side isn't settled,
    /// nothing is done, and the tail found is returned.
    #[inline(always)]
    fn dequeue<I: Items<T>>(
        &self,
        seat: &mut Seat<Cell<T, S>, View<T>>,
        range: Positions,
        k: usize,
        items: &mut I,
    ) -> Option<u64>
        requires seat { IsSeated self.now seat.old }
        requires shows { I.items items.old ≡ seat.old.me.0.shown }
        requires whole { length (I.items items.old) ≡ range.count }
        requires count { IsCount self.now.shape.now.plan.take k range.count }
        requires span { seat.old.me.0.party.span ≡ Some (span_of self.now.index Take range.start range.count) }
        requires slots { seat.old.me.1 ≡ slots_of self.now range.start (replicate range.count None) }
        ensures seat { IsSameSeat seat.old seat.new }
        ensures done { IfNone result ((seat.new.me.0
            ≡ settled (span_of self.now.index Take range.start range.count) (take k seat.old.me.0.shown) seat.old.me.0)
            × (seat.new.me.1 ≡ []) × IsHeldOnce T.numbers seat.new.me.0.pool seat.new.me.0.party
            × (I.items items.new ≡ I.left (I.items items.old) k)
            × (take k (I.items items.new) ≡ take k (I.items items.old))) }
        ensures early { IfSome result (λ x. (self.now.shape.now.plan.take ≡ Multi) × (x < range.start)
            × (seat.new.me.0 ≡ missed x seat.old.me.0) × (seat.new.me.1 ≡ seat.old.me.1)
            × (I.items items.new ≡ I.items items.old)) }
        ensures true_refusal { IfSome result
            (λ x. WasEarlier T.numbers (span_of self.now.index Take range.start range.count) seat.old.me.0 x) }
        ensures beside { (before : I) → I.beside before items.old → I.beside before items.new }
    {
        self.keep(seat, range, k, items);
        match self.commit(seat, Side::Take, range, k) {
            None => None,
            Some(found) => Some(found),
        }
    }

    /// Tries once to take the items at the first `k` positions of a take span. At a refusal the span stays open.
    /// Requires: these are the items that the start showed.
    #[inline(always)]
    pub(crate) fn settle_take<I: Items<T>>(
        &self,
        share: &mut Share<T, S>,
        range: Positions,
        k: usize,
        items: &mut I,
    ) -> Result<(), SettleFault>
        requires seat { IsSeated self.now share.old.seat }
        requires shows { I.items items.old ≡ share.old.seat.me.0.shown }
        requires whole { length share.old.seat.me.0.shown ≡ range.count }
        requires span { share.old.seat.me.0.party.span ≡ Some (span_of self.now.index Take range.start range.count) }
        requires slots { share.old.seat.me.1 ≡ slots_of self.now range.start (replicate range.count None) }
        ensures seat { IsSameSeat share.old.seat share.new.seat }
        ensures done { IfOk result (λ _. IsCount self.now.shape.now.plan.take k range.count
            × (share.new.seat.me.0 ≡ settled (span_of self.now.index Take range.start range.count)
            (take k (I.items items.old)) share.old.seat.me.0) × (share.new.seat.me.1 ≡ [])
            × (I.items items.new ≡ I.left (I.items items.old) k)) }
        ensures refused { IfErr result (λ e. (share.new.seat.me.1 ≡ share.old.seat.me.1)
            × (I.items items.new ≡ I.items items.old) × IsUnsettled T.numbers self.now.shape.now.plan
            (span_of self.now.index Take range.start range.count) k [] share.old.seat.me.0
            share.new.seat.me.0 e) }
        ensures shown { IfErr result (λ e. share.new.seat.me.0.shown ≡ share.old.seat.me.0.shown) }
        ensures named { IfErr result (λ e. e ≡ NotYours → ⊥) }
        ensures apart { IfOk result (λ _. AreDistinct (flat_map T.numbers (take k (I.items items.old)))) }
        ensures owned { IfOk result
            (λ _. HoldsMore T.numbers share.old.seat.me.0 (take k (I.items items.old)) share.new.seat.me.0) }
        ensures beside { (before : I) → I.beside before items.old → I.beside before items.new }
    {
        if !self.is_count(Side::Take, k, range.count) {
            return Err(SettleFault::BadCount);
        }
        match self.dequeue(&mut share.seat, range, k, items) {
            None => {
                items.own(k, &mut share.owned);
                Ok(())
            }
            Some(tail) => Err(SettleFault::NotYet(tail)),
        }
    }
}
