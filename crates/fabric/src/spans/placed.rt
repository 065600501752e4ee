//! Calls on a ring whose place is known, by a hand that stays where it is: nothing about the ring is looked up.
ghost use Rattle.std.specs.Prelude.{◌≡◌, ◌<◌, ◌≤◌, ◌++◌, ◌^◌, [], drop, length, take, IfOk, IfErr};
ghost use Rattle.std.specs.List.{flat_map};
ghost use Rattle.burst.specs.Numbers.{AreDistinct};
ghost use Rattle.geom.specs.declared.plan.Mode.TheVariants.{Hts};
ghost use Rattle.geom.specs.declared.plan.Side.TheVariants.{Put, Take};
ghost use Rattle.fabric_laws.specs.Changes.{advanced};
ghost use Rattle.fabric.specs.Advances.{IsRestOf, RefusesAdvance};
ghost use Rattle.fabric.specs.Hands.{OnRing};
ghost use Rattle.fabric.specs.Held.{reserved_count, reserved_ring, span_at};
ghost use Rattle.fabric.specs.InPlace.{IsPlacedOf, placed_view};
ghost use Rattle.fabric.specs.Places.{HasCounts, IsKnown, IsPlaceOf, place_mode, place_ring};
ghost use Rattle.fabric.specs.Settles.{HoldsLess, HoldsMore};
ghost use Rattle.fabric.specs.WholeCalls.{HasMoved, RefusesPut, RefusesTake};
ghost use Rattle.fabric.specs.declared.hand.in_place.OpenSpan.TheVariants as open_span;

use crate::fabric::Fabric;
use crate::hand::SettleFault;
use crate::hand::in_place::{HandInPlace, OpenSpan, Reserved, WholeFault};
use crate::items::front::Front;
use crate::items::words::Words;
use crate::items::{PutItems, TakeItems};
use crate::place::{Known, Place};
use crate::stored::Stored;
use burst::{Tagged, Word};
use geom::{How, Side};

impl<T: Tagged, const N: usize, S: Stored<T>> HandInPlace<T, N, S> {
    /// `try_put` on the ring at this place, of at most `most` items, which may be more than `N`. Requires: it
    /// isn't more than any ring holds, and the word of a head/tail-sync side has room for as many; what is `known` of
    /// the put side is so.
    #[inline(always)]
    pub fn try_put_at<I: PutItems<T>>(
        &mut self,
        fabric: &Fabric<T, N, S>,
        place: &Place,
        known: Known,
        items: &mut I,
        most: usize,
        how: How,
    ) -> Result<Reserved, WholeFault>
        requires of { IsPlacedOf fabric.now self.old }
        requires idle { self.old.span ≡ open_span.Idle }
        requires place { IsPlaceOf fabric.now place.now }
        requires known { IsKnown place.now Put known }
        requires counts { HasCounts place.now Put most }
        requires small { N < most → most < 2 ^ 20 }
        ensures of { IsPlacedOf fabric.now self.new }
        ensures done { IfOk result (λ r. (self.new.span ≡ open_span.Idle) × HasMoved T.numbers fabric.now most how
            (length (I.items items.old)) (place_ring place.now) (placed_view self.old) Put r []
            (take r.range.count (I.items items.old)) (placed_view self.new)
            × (I.items items.new ≡ I.after (I.items items.old) r.range.count)) }
        ensures refused { IfErr result (λ e. RefusesPut T.numbers fabric.now most how (length (I.items items.old))
            (place_ring place.now) (placed_view self.old) (I.items items.old) self.new.span (placed_view self.new) e
            × (I.items items.new ≡ I.items items.old)) }
    {
        self.recent.left = 0;
        let target = fabric.at(place, Side::Put, known);
        let range = match target.open_span(&mut self.share, Side::Put, items.len(), most, how) {
            Ok(range) => range,
            Err(fault) => return Err(WholeFault::Start(fault)),
        };
        let reserved = Reserved {
            ring: place.index,
            range,
        };
        match target.settle_put_first(&mut self.share, range, range.count, items) {
            Ok(()) => Ok(reserved),
            Err(fault) => {
                self.span = OpenSpan::Put(reserved);
                Err(WholeFault::Settle(reserved, fault))
            }
        }
    }

    /// `try_advance_put` on the ring at this place. Requires: it is the ring of the open span, and what is `known` of
    /// the put side is so.
    #[inline(always)]
    pub fn try_advance_put_at<I: PutItems<T>>(
        &mut self,
        fabric: &Fabric<T, N, S>,
        place: &Place,
        known: Known,
        reserved: Reserved,
        items: &mut I,
    ) -> Result<Reserved, SettleFault>
        requires of { IsPlacedOf fabric.now self.old }
        requires open { self.old.span ≡ open_span.Put reserved }
        requires place { IsPlaceOf fabric.now place.now }
        requires known { IsKnown place.now Put known }
        requires here { place_ring place.now ≡ reserved_ring reserved }
        requires hts { place_mode place.now Put ≡ Hts }
        ensures of { IsPlacedOf fabric.now self.new }
        ensures done { IfOk result (λ r. (self.new.span ≡ open_span.Put r)
            × (length (I.items items.old) < reserved_count reserved)
            × IsRestOf (length (I.items items.old)) reserved r
            × (placed_view self.new ≡ advanced (span_at Put reserved) (I.items items.old) (placed_view self.old))
            × (I.items items.new ≡ I.left (I.items items.old) 0)) }
        ensures refused { IfErr result (λ e. (self.new.span ≡ self.old.span)
            × (I.items items.new ≡ I.items items.old) × OnRing fabric.now (reserved_ring reserved)
            (λ plan. RefusesAdvance T.numbers plan (length (I.items items.old)) (reserved_count reserved)
            (I.items items.old) (placed_view self.old) (placed_view self.new) e)) }
        ensures owned { IfOk result
            (λ _. HoldsLess T.numbers (placed_view self.old) (I.items items.old) (placed_view self.new)) }
    {
        self.recent.left = 0;
        let target = fabric.at(place, Side::Put, known);
        match &mut self.span {
            OpenSpan::Put(open) => {
                match target.advance_put(&mut self.share, &mut open.range, items) {
                    Ok(()) => Ok(*open),
                    Err(fault) => Err(fault),
                }
            }
            _ => unreachable!(),
        }
    }

    /// `advance_take` on the ring at this place. Requires: it is the ring of the held span.
    #[inline(always)]
    pub fn advance_take_at<I: TakeItems<T>>(
        &mut self,
        fabric: &Fabric<T, N, S>,
        place: &Place,
        reserved: Reserved,
        k: usize,
        into: &mut I,
    ) -> Reserved
        requires of { IsPlacedOf fabric.now self.old }
        requires held { self.old.span ≡ open_span.Held reserved }
        requires place { IsPlaceOf fabric.now place.now }
        requires here { place_ring place.now ≡ reserved_ring reserved }
        requires more { k < reserved_count reserved }
        requires empty { I.items into.old ≡ [] }
        requires room { k ≤ I.room into.old }
        ensures of { IsPlacedOf fabric.now self.new }
        ensures rest { (self.new.span ≡ open_span.Held result) × IsRestOf k reserved result }
        ensures items { I.items into.new ≡ take k (placed_view self.old).shown }
        ensures many { length (I.items into.new) ≡ k }
        ensures shown { (placed_view self.new).shown ≡ drop k (placed_view self.old).shown }
        ensures view { placed_view self.new
            ≡ advanced (span_at Take reserved) (take k (placed_view self.old).shown) (placed_view self.old) }
        ensures owned { HoldsMore T.numbers (placed_view self.old) (take k (placed_view self.old).shown)
            (placed_view self.new) }
        ensures apart { AreDistinct (flat_map T.numbers (take k (placed_view self.old).shown)) }
        ensures beside { I.beside into.old into.new }
    {
        self.recent.left = 0;
        let target = fabric.at(place, Side::Take, place.known(Side::Take));
        match &mut self.span {
            OpenSpan::Held(open) => {
                target.advance_take(&mut self.share, &mut open.range, k, into);
                *open
            }
            _ => unreachable!(),
        }
    }
}

impl<T: Word, const N: usize, S: Stored<T>> HandInPlace<T, N, S> {
    /// `try_take` on the ring at this place, of at most `most` words, which may be more than `N`. Requires: it
    /// isn't more than any ring holds, and the word of a head/tail-sync side has room for as many; what is `known` of
    /// the take side is so.
    #[inline(always)]
    pub fn try_take_at(
        &mut self,
        fabric: &Fabric<T, N, S>,
        place: &Place,
        known: Known,
        into: &mut [T],
        most: usize,
        how: How,
    ) -> Result<Reserved, WholeFault>
        requires of { IsPlacedOf fabric.now self.old }
        requires idle { self.old.span ≡ open_span.Idle }
        requires place { IsPlaceOf fabric.now place.now }
        requires known { IsKnown place.now Take known }
        requires counts { HasCounts place.now Take most }
        requires small { N < most → most < 2 ^ 20 }
        ensures of { IsPlacedOf fabric.now self.new }
        ensures done { IfOk result (λ r. (self.new.span ≡ open_span.Idle)
            × (into.new ≡ take r.range.count into.new ++ drop r.range.count into.old)
            × (length (take r.range.count into.new) ≡ r.range.count)
            × HasMoved T.numbers fabric.now most how (length into.old) (place_ring place.now) (placed_view self.old)
            Take r (take r.range.count into.new) (take r.range.count into.new) (placed_view self.new)) }
        ensures refused { IfErr result (λ e. RefusesTake T.numbers fabric.now most how (length into.old)
            (place_ring place.now) (placed_view self.old) into.old into.new self.new.span (placed_view self.new) e) }
    {
        self.recent.left = 0;
        let target = fabric.at(place, Side::Take, known);
        let n = into.len();
        let mut front = Front {
            words: &mut *into,
            count: 0,
        };
        let range = match target.open_take(&mut self.share, n, most, how, &mut front) {
            Ok(range) => range,
            Err(fault) => return Err(WholeFault::Start(fault)),
        };
        let reserved = Reserved {
            ring: place.index,
            range,
        };
        let count = range.count;
        match target.settle_take(
            &mut self.share,
            range,
            count,
            &mut Words {
                words: &into[..count],
            },
        ) {
            Ok(()) => Ok(reserved),
            Err(fault) => {
                self.span = OpenSpan::Take(reserved);
                Err(WholeFault::Settle(reserved, fault))
            }
        }
    }
}
