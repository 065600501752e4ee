//! Advancing an open span of a head/tail-sync side: one store of the side's word settles its first positions, and the
//! others stay reserved. Beside it, what gives up a held take: a store after which nothing is reserved.
ghost use Rattle.std.specs.Prelude.{◌≡◌, ◌<◌, ◌≤◌, ◌+◌, ◌-◌, ◌++◌, [], length, drop, map, take, replicate};
ghost use Rattle.std.specs.Prelude.{IfOk, IfErr, None, Some, true};
ghost use Rattle.std.specs.List.{flat_map};
ghost use Rattle.burst.specs.Numbers.{AreDistinct};
ghost use Rattle.geom.specs.declared.plan.Mode.TheVariants.{Hts};
ghost use Rattle.geom.specs.declared.plan.Side.TheVariants.{Put, Take};
ghost use Rattle.ringcore_laws.specs.FreeRings.{AreSingle};
ghost use Rattle.ringcore_laws.specs.Moves.{Owns};
ghost use Rattle.fabric_laws.specs.Changes.{advanced, settled};
ghost use Rattle.fabric_laws.specs.Kinds.{IsHeldOnce};
ghost use Rattle.fabric.specs.Advances.{IsRest, RefusesAdvance};
ghost use Rattle.fabric.specs.OpenSpans.{IsHeldOn};
ghost use Rattle.fabric.specs.Rings.{IsSameSeat, IsSeated, slots_of};
ghost use Rattle.fabric.specs.Settles.{HoldsLess, HoldsMore};
ghost use Rattle.fabric.specs.Views.{span_of};

use crate::hand::{SettleFault, Share};
use crate::items::{Items, PutItems, TakeItems};
use crate::ring::{Positions, Ring};
use crate::slots::skip;
use crate::stored::{Cell, Stored};
use atomic_table::Seat;
use burst::Tagged;
use fabric_laws::View;
use geom::Side;

impl Positions {
    /// The positions after the first `k`. Requires: there are that many.
    #[inline(always)]
    fn after(self, k: usize) -> Positions
        requires { k ≤ self.count }
        ensures { IsRest k self result }
    {
        Positions {
            start: self.start + k as u64,
            count: self.count - k,
            left: self.left,
        }
    }
}

impl<T: Tagged, const N: usize, S: Stored<T>> Ring<'_, T, N, S> {
    /// Publishes items at the first positions of a put span of an HTS side. The other positions stay reserved.
    #[inline(always)]
    fn publish_first<I: PutItems<T>>(
        &self,
        seat: &mut Seat<Cell<T, S>, View<T>>,
        range: Positions,
        items: &mut I,
    )
        requires seat { IsSeated self.now seat.old }
        requires hts { self.now.shape.now.plan.put ≡ Hts }
        requires short { length (I.items items.old) < range.count }
        requires span { seat.old.me.0.party.span ≡ Some (span_of self.now.index Put range.start range.count) }
        requires owned { Owns T.numbers seat.old.me.0.party (I.items items.old) }
        requires single { self.now.shape.now.plan.free ≡ true → AreSingle T.numbers (I.items items.old) }
        requires slots { seat.old.me.1 ≡ slots_of self.now range.start (replicate range.count None) }
        ensures seat { IsSameSeat seat.old seat.new }
        ensures done { (seat.new.me.0
            ≡ advanced (span_of self.now.index Put range.start range.count) (I.items items.old) seat.old.me.0)
            × (seat.new.me.1 ≡ slots_of self.now (range.start + length (I.items items.old))
            (replicate (range.count - length (I.items items.old)) None))
            × IsHeldOnce T.numbers seat.new.me.0.pool seat.new.me.0.party }
        ensures left { I.items items.new ≡ I.left (I.items items.old) 0 }
    {
        let k = items.len();
        self.offer(seat, range, items);
        self.advance(seat, Side::Put, range.start, range.count, k);
    }

    /// Tries once to publish items at the first positions of a put span of an HTS side. The other positions stay open,
    /// and are the range afterwards. It is changed before the word is stored, since that takes less time than after it.
    /// At a refusal the span is as it was.
    #[inline(always)]
    pub(crate) fn advance_put<I: PutItems<T>>(
        &self,
        share: &mut Share<T, S>,
        range: &mut Positions,
        items: &mut I,
    ) -> Result<(), SettleFault>
        requires seat { IsSeated self.now share.old.seat }
        requires hts { self.now.shape.now.plan.put ≡ Hts }
        requires span { share.old.seat.me.0.party.span
            ≡ Some (span_of self.now.index Put range.old.start range.old.count) }
        requires slots { share.old.seat.me.1 ≡ slots_of self.now range.old.start (replicate range.old.count None) }
        ensures seat { IsSameSeat share.old.seat share.new.seat }
        ensures done { IfOk result (λ _. (length (I.items items.old) < range.old.count)
            × IsRest (length (I.items items.old)) range.old range.new
            × (share.new.seat.me.0 ≡ advanced (span_of self.now.index Put range.old.start range.old.count)
            (I.items items.old) share.old.seat.me.0)
            × (share.new.seat.me.1 ≡ slots_of self.now range.new.start (replicate range.new.count None))
            × (I.items items.new ≡ I.left (I.items items.old) 0)) }
        ensures refused { IfErr result (λ e. (range.new ≡ range.old) × (share.new.seat.me.1 ≡ share.old.seat.me.1)
            × (I.items items.new ≡ I.items items.old) × RefusesAdvance T.numbers self.now.shape.now.plan
            (length (I.items items.old)) range.old.count (I.items items.old) share.old.seat.me.0 share.new.seat.me.0
            e) }
        ensures owned { IfOk result
            (λ _. HoldsLess T.numbers share.old.seat.me.0 (I.items items.old) share.new.seat.me.0) }
    {
        let k = items.len();
        if k >= range.count {
            return Err(SettleFault::BadCount);
        }
        if !self.disown(items, &mut share.owned) {
            return Err(SettleFault::NotYours);
        }
        let whole = *range;
        *range = whole.after(k);
        self.publish_first(&mut share.seat, whole, items);
        Ok(())
    }

    /// Moves the items out of the first `k` slots of a take span, whose items are in their slots.
    #[inline(always)]
    fn withdraw<I: TakeItems<T>>(
        &self,
        seat: &mut Seat<Cell<T, S>, View<T>>,
        range: Positions,
        k: usize,
        into: &mut I,
    )
        requires held { IsHeldOn self.now seat.old range }
        requires fits { k ≤ range.count }
        requires empty { I.items into.old ≡ [] }
        requires room { k ≤ I.room into.old }
        ensures seat { IsSameSeat seat.old seat.new × (seat.new.me.0 ≡ seat.old.me.0) }
        ensures slots { seat.new.me.1 ≡ slots_of self.now range.start
            (replicate k None ++ drop k (map Some seat.old.me.0.shown)) }
        ensures items { I.items into.new ≡ take k seat.old.me.0.shown }
        ensures beside { I.beside into.old into.new }
    {
        into.take_out(&self.fabric.table.shared, self.shape, seat, range.start, k);
        skip(seat, range.count - k);
    }

    /// Takes the items at the first `k` positions of a take span of an HTS side. The others stay in their slots, and
    /// their positions reserved.
    #[inline(always)]
    fn dequeue_first<I: TakeItems<T>>(
        &self,
        seat: &mut Seat<Cell<T, S>, View<T>>,
        range: Positions,
        k: usize,
        into: &mut I,
    )
        requires held { IsHeldOn self.now seat.old range }
        requires short { k < range.count }
        requires empty { I.items into.old ≡ [] }
        requires room { k ≤ I.room into.old }
        ensures seat { IsSameSeat seat.old seat.new }
        ensures done { (seat.new.me.0
            ≡ advanced (span_of self.now.index Take range.start range.count) (take k seat.old.me.0.shown)
            seat.old.me.0)
            × (seat.new.me.1 ≡ slots_of self.now (range.start + k) (map Some (drop k seat.old.me.0.shown)))
            × IsHeldOnce T.numbers seat.new.me.0.pool seat.new.me.0.party }
        ensures items { I.items into.new ≡ take k seat.old.me.0.shown }
        ensures beside { I.beside into.old into.new }
    {
        self.withdraw(seat, range, k, into);
        self.advance(seat, Side::Take, range.start, range.count, k);
    }

    /// Takes the items at the first `k` positions of a take span of an HTS side, whose items are in their slots. The
    /// other positions stay open, and are the range afterwards: it is changed first, as in `advance_put`.
    #[inline(always)]
    pub(crate) fn advance_take<I: TakeItems<T>>(
        &self,
        share: &mut Share<T, S>,
        range: &mut Positions,
        k: usize,
        into: &mut I,
    )
        requires held { IsHeldOn self.now share.old.seat range.old }
        requires short { k < range.old.count }
        requires empty { I.items into.old ≡ [] }
        requires room { k ≤ I.room into.old }
        ensures seat { IsSameSeat share.old.seat share.new.seat }
        ensures rest { IsRest k range.old range.new }
        ensures items { I.items into.new ≡ take k share.old.seat.me.0.shown }
        ensures shown { share.new.seat.me.0.shown ≡ drop k share.old.seat.me.0.shown }
        ensures view { share.new.seat.me.0 ≡ advanced (span_of self.now.index Take range.old.start range.old.count)
            (take k share.old.seat.me.0.shown) share.old.seat.me.0 }
        ensures slots { share.new.seat.me.1 ≡ slots_of self.now range.new.start (map Some share.new.seat.me.0.shown) }
        ensures owned { HoldsMore T.numbers share.old.seat.me.0 (take k share.old.seat.me.0.shown)
            share.new.seat.me.0 }
        ensures apart { AreDistinct (flat_map T.numbers (take k share.old.seat.me.0.shown)) }
        ensures beside { I.beside into.old into.new }
    {
        let whole = *range;
        *range = whole.after(k);
        self.dequeue_first(&mut share.seat, whole, k, into);
        into.own(k, &mut share.owned);
    }

    /// Takes the items at the first `k` positions of a take span of an HTS side, and gives up the others, whose items
    /// are queued again.
    #[inline(always)]
    fn dequeue_last<I: TakeItems<T>>(
        &self,
        seat: &mut Seat<Cell<T, S>, View<T>>,
        range: Positions,
        k: usize,
        into: &mut I,
    )
        requires held { IsHeldOn self.now seat.old range }
        requires fits { k ≤ range.count }
        requires empty { I.items into.old ≡ [] }
        requires room { k ≤ I.room into.old }
        ensures seat { IsSameSeat seat.old seat.new }
        ensures done { (seat.new.me.0
            ≡ settled (span_of self.now.index Take range.start range.count) (take k seat.old.me.0.shown)
            seat.old.me.0) × (seat.new.me.1 ≡ []) × IsHeldOnce T.numbers seat.new.me.0.pool seat.new.me.0.party }
        ensures items { I.items into.new ≡ take k seat.old.me.0.shown }
        ensures beside { I.beside into.old into.new }
    {
        self.withdraw(seat, range, k, into);
        self.store(seat, Side::Take, range.start, k);
    }

    /// Takes the items at the first `k` positions of a take span of an HTS side, whose items are in their slots, and
    /// gives up the side: the others are queued again.
    #[inline(always)]
    pub(crate) fn release_take<I: TakeItems<T>>(
        &self,
        share: &mut Share<T, S>,
        range: Positions,
        k: usize,
        into: &mut I,
    )
        requires held { IsHeldOn self.now share.old.seat range }
        requires fits { k ≤ range.count }
        requires empty { I.items into.old ≡ [] }
        requires room { k ≤ I.room into.old }
        ensures seat { IsSameSeat share.old.seat share.new.seat }
        ensures items { I.items into.new ≡ take k share.old.seat.me.0.shown }
        ensures view { share.new.seat.me.0 ≡ settled (span_of self.now.index Take range.start range.count)
            (take k share.old.seat.me.0.shown) share.old.seat.me.0 }
        ensures slots { share.new.seat.me.1 ≡ [] }
        ensures owned { HoldsMore T.numbers share.old.seat.me.0 (take k share.old.seat.me.0.shown)
            share.new.seat.me.0 }
        ensures apart { AreDistinct (flat_map T.numbers (take k share.old.seat.me.0.shown)) }
        ensures beside { I.beside into.old into.new }
    {
        self.dequeue_last(&mut share.seat, range, k, into);
        into.own(k, &mut share.owned);
    }
}
