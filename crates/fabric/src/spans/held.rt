//! A hand that stays where it is holds a head/tail-sync side: its span stays open over several puts, or several takes.
//! A put side is held by `try_start_put`, `try_advance_put` again and again, and `try_settle_put`; a take side by the
//! calls here. Meanwhile other hands find the side busy.
ghost use Rattle.std.specs.Prelude.{◌≡◌, ◌≤◌, ◌<◌, [], drop, length, take, IfOk, IfErr};
ghost use Rattle.std.specs.List.{flat_map};
ghost use Rattle.burst.specs.Numbers.{AreDistinct};
ghost use Rattle.geom.specs.declared.plan.Side.TheVariants.{Put, Take};
ghost use Rattle.ringcore_laws.specs.Party.{with_open};
ghost use Rattle.fabric_laws.specs.Changes.{advanced, settled};
ghost use Rattle.fabric.specs.Advances.{IsRestOf, RefusesAdvance};
ghost use Rattle.fabric.specs.Hands.{OnRing, rings_of};
ghost use Rattle.fabric.specs.Held.{IsHtsOf, reserved_count, span_at};
ghost use Rattle.fabric.specs.InPlace.{IsPlacedOf, placed_view};
ghost use Rattle.fabric.specs.Settles.{HoldsLess, HoldsMore};
ghost use Rattle.fabric.specs.Starts.{MayStart, Starts};
ghost use Rattle.fabric.specs.Refused.{IsRefused};
ghost use Rattle.fabric.specs.declared.hand.in_place.OpenSpan.TheVariants as open_span;

use crate::fabric::Fabric;
use crate::hand::in_place::{HandInPlace, OpenSpan, Reserved};
use crate::hand::{SettleFault, StartFault};
use crate::items::{Items, PutItems, TakeItems};
use crate::stored::Stored;
use burst::Tagged;
use geom::{How, Side};

impl<T: Tagged, const N: usize, S: Stored<T>> HandInPlace<T, N, S> {
    /// Tries once to publish items at the first positions of the open span of a head/tail-sync side. The other
    /// positions stay reserved, and are returned as the open span. One step on a word, a store. At a refusal nothing
    /// changes. Requires: the put side is head/tail-sync (`Fabric::mode` shows it).
    ///
    /// Errors, in the order of the tests, before any step: `BadCount` if no position would stay open (the last ones go
    /// by `try_settle_put`); `NotYours`.
    #[inline(always)]
    pub fn try_advance_put<I: PutItems<T>>(
        &mut self,
        fabric: &Fabric<T, N, S>,
        reserved: Reserved,
        items: &mut I,
    ) -> Result<Reserved, SettleFault>
        requires of { IsPlacedOf fabric.now self.old }
        requires open { self.old.span ≡ open_span.Put reserved }
        requires hts { IsHtsOf (rings_of fabric.now) reserved.ring Put }
        ensures of { IsPlacedOf fabric.now self.new }
        ensures done { IfOk result (λ r. (self.new.span ≡ open_span.Put r)
            × (length (I.items items.old) < reserved_count reserved)
            × IsRestOf (length (I.items items.old)) reserved r
            × (placed_view self.new ≡ advanced (span_at Put reserved) (I.items items.old) (placed_view self.old))
            × (I.items items.new ≡ I.left (I.items items.old) 0)) }
        ensures refused { IfErr result (λ e. (self.new.span ≡ self.old.span)
            × (I.items items.new ≡ I.items items.old) × OnRing fabric.now reserved.ring
            (λ plan. RefusesAdvance T.numbers plan (length (I.items items.old)) (reserved_count reserved)
            (I.items items.old) (placed_view self.old) (placed_view self.new) e)) }
        ensures owned { IfOk result
            (λ _. HoldsLess T.numbers (placed_view self.old) (I.items items.old) (placed_view self.new)) }
    {
        let place = fabric.place(reserved.ring);
        let known = place.known(Side::Put);
        self.try_advance_put_at(fabric, &place, known, reserved, items)
    }

    /// Tries once to hold the take side of a head/tail-sync ring: by bulk with `n` items, by burst with at most `n`.
    /// The items stay in their slots, and queued, until they are taken. At most three steps on words. Requires: the
    /// take side is head/tail-sync (`Fabric::mode` shows it), and the hand has no open span.
    ///
    /// Errors, in the order of the tests: `BadCount` if `n` is 0 or above `N`, before any step; `Busy`; `NoRoom`;
    /// `Worn`; `Contended`. No span is open then.
    #[inline(always)]
    pub fn try_hold_take(
        &mut self,
        fabric: &Fabric<T, N, S>,
        ring: usize,
        n: usize,
        how: How,
    ) -> Result<Reserved, StartFault>
        requires of { IsPlacedOf fabric.now self.old }
        requires idle { self.old.span ≡ open_span.Idle }
        requires ring { ring < length (rings_of fabric.now) }
        requires hts { IsHtsOf (rings_of fabric.now) ring Take }
        ensures of { IsPlacedOf fabric.now self.new }
        ensures started { IfOk result (λ r. (self.new.span ≡ open_span.Held r) × (r.ring ≡ ring)
            × OnRing fabric.now ring (λ plan. Starts T.numbers how n ring Take plan (placed_view self.old)
            r.range.start r.range.count r.range.left (placed_view self.new).shown (placed_view self.new))) }
        ensures refused { IfErr result (λ e. (self.new.span ≡ open_span.Idle) × OnRing fabric.now ring (λ plan.
            IsRefused T.numbers N how n ring Take plan (placed_view self.old) (placed_view self.new) e)) }
        ensures may { IfOk result (λ _. OnRing fabric.now ring
            (λ plan. MayStart T.numbers N n Take plan (placed_view self.old))) }
        ensures shown { IfOk result (λ r. length (placed_view self.new).shown ≡ reserved_count r) }
        ensures opened { IfOk result
            (λ r. (placed_view self.new).party ≡ with_open (placed_view self.old).party (span_at Take r)) }
    {
        self.recent.left = 0;
        let range = match fabric
            .ring(ring)
            .open_span(&mut self.share, Side::Take, n, N, how)
        {
            Ok(range) => range,
            Err(fault) => return Err(fault),
        };
        let reserved = Reserved { ring, range };
        self.span = OpenSpan::Held(reserved);
        Ok(reserved)
    }

    /// Takes the items at the first `k` positions of the held span into an empty list. The others stay in their slots,
    /// and their positions reserved; they are returned as the open span. One step on a word, a store. Requires: at
    /// least one position stays open (the last ones go by `release_take`), and the list is empty and has room.
    #[inline(always)]
    pub fn advance_take<I: TakeItems<T>>(
        &mut self,
        fabric: &Fabric<T, N, S>,
        reserved: Reserved,
        k: usize,
        into: &mut I,
    ) -> Reserved
        requires of { IsPlacedOf fabric.now self.old }
        requires held { self.old.span ≡ open_span.Held reserved }
        requires more { k < reserved_count reserved }
        requires empty { I.items into.old ≡ [] }
        requires room { k ≤ I.room into.old }
        ensures of { IsPlacedOf fabric.now self.new }
        ensures rest { (self.new.span ≡ open_span.Held result) × IsRestOf k reserved result }
        ensures items { I.items into.new ≡ take k (placed_view self.old).shown }
        ensures many { length (I.items into.new) ≡ k }
        ensures shown { (placed_view self.new).shown ≡ drop k (placed_view self.old).shown }
        ensures view { placed_view self.new
            ≡ advanced (span_at Take reserved) (take k (placed_view self.old).shown) (placed_view self.old) }
        ensures owned { HoldsMore T.numbers (placed_view self.old) (take k (placed_view self.old).shown)
            (placed_view self.new) }
        ensures apart { AreDistinct (flat_map T.numbers (take k (placed_view self.old).shown)) }
        ensures beside { I.beside into.old into.new }
    {
        self.advance_take_at(fabric, &fabric.place(reserved.ring), reserved, k, into)
    }

    /// Takes the items at the first `k` positions of the held span, or none, into an empty list, and gives up the side:
    /// the others are queued again, in their order. One step on a word, a store. Requires: the span has as many
    /// positions, and the list is empty and has room.
    #[inline(always)]
    pub fn release_take<I: TakeItems<T>>(
        &mut self,
        fabric: &Fabric<T, N, S>,
        reserved: Reserved,
        k: usize,
        into: &mut I,
    )
        requires of { IsPlacedOf fabric.now self.old }
        requires held { self.old.span ≡ open_span.Held reserved }
        requires fits { k ≤ reserved_count reserved }
        requires empty { I.items into.old ≡ [] }
        requires room { k ≤ I.room into.old }
        ensures of { IsPlacedOf fabric.now self.new }
        ensures idle { self.new.span ≡ open_span.Idle }
        ensures items { I.items into.new ≡ take k (placed_view self.old).shown }
        ensures many { length (I.items into.new) ≡ k }
        ensures view { placed_view self.new
            ≡ settled (span_at Take reserved) (take k (placed_view self.old).shown) (placed_view self.old) }
        ensures owned { HoldsMore T.numbers (placed_view self.old) (take k (placed_view self.old).shown)
            (placed_view self.new) }
        ensures apart { AreDistinct (flat_map T.numbers (take k (placed_view self.old).shown)) }
        ensures beside { I.beside into.old into.new }
    {
        self.recent.left = 0;
        let target = fabric.ring(reserved.ring);
        target.release_take(&mut self.share, reserved.range, k, into);
        self.span = OpenSpan::Idle;
    }
}
