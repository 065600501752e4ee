//! Starts and settles of words by a hand that stays where it is.
ghost use Rattle.std.specs.Prelude.{◌≡◌, ◌≤◌, ◌<◌, ◌++◌, [], drop, length, take, IfOk, IfErr};
ghost use Rattle.std.specs.List.{flat_map};
ghost use Rattle.burst.specs.Numbers.{AreDistinct};
ghost use Rattle.geom.specs.declared.plan.Side.TheVariants.{Put, Take};
ghost use Rattle.ringcore_laws.specs.Party.{with_open};
ghost use Rattle.fabric_laws.specs.Changes.{settled};
ghost use Rattle.fabric.specs.Hands.{OnRing, rings_of};
ghost use Rattle.fabric.specs.Held.{span_at};
ghost use Rattle.fabric.specs.InPlace.{IsPlacedOf, placed_view};
ghost use Rattle.fabric.specs.Settles.{HoldsLess, HoldsMore, IsCount};
ghost use Rattle.fabric.specs.Starts.{MayStart, Starts};
ghost use Rattle.fabric.specs.Refused.{IsRefused, IsUnsettled};
ghost use Rattle.fabric.specs.declared.hand.in_place.OpenSpan.TheVariants as open_span;
ghost use Rattle.fabric.specs.declared.hand.SettleFault.TheVariants.{NotYours};

use crate::fabric::Fabric;
use crate::hand::in_place::{HandInPlace, OpenSpan, Reserved};
use crate::hand::{SettleFault, StartFault};
use crate::items::front::Front;
use crate::items::{Items, PutItems};
use crate::stored::Stored;
use burst::{Tagged, Word};
use geom::{How, Side};

impl<T: Tagged, const N: usize, S: Stored<T>> HandInPlace<T, N, S> {
    /// Tries once to reserve a span of positions for a put: by bulk `n` of them, by burst at most `n`. At most three
    /// steps on words. Requires: the hand has no open span.
    ///
    /// Errors, in the order of the tests: `BadCount` if `n` is 0 or above `N`, or above the number of the hand's
    /// buffers on a free ring, before any step; `Busy`; `NoRoom`, never on a free ring; `Worn`; `Contended`. No span is
    /// open then.
    #[inline(always)]
    pub fn try_start_put(
        &mut self,
        fabric: &Fabric<T, N, S>,
        ring: usize,
        n: usize,
        how: How,
    ) -> Result<Reserved, StartFault>
        requires of { IsPlacedOf fabric.now self.old }
        requires idle { self.old.span ≡ open_span.Idle }
        requires ring { ring < length (rings_of fabric.now) }
        ensures of { IsPlacedOf fabric.now self.new }
        ensures started { IfOk result (λ r. (self.new.span ≡ open_span.Put r) × (r.ring ≡ ring)
            × OnRing fabric.now ring (λ plan. Starts T.numbers how n ring Put plan (placed_view self.old)
            r.range.start r.range.count r.range.left [] (placed_view self.new))) }
        ensures refused { IfErr result (λ e. (self.new.span ≡ open_span.Idle) × OnRing fabric.now ring (λ plan.
            IsRefused T.numbers N how n ring Put plan (placed_view self.old) (placed_view self.new) e)) }
        ensures may { IfOk result (λ _. OnRing fabric.now ring
            (λ plan. MayStart T.numbers N n Put plan (placed_view self.old))) }
        ensures opened { IfOk result
            (λ r. (placed_view self.new).party ≡ with_open (placed_view self.old).party (span_at Put r)) }
    {
        self.recent.left = 0;
        let range = match fabric
            .ring(ring)
            .open_span(&mut self.share, Side::Put, n, N, how)
        {
            Ok(range) => range,
            Err(fault) => return Err(fault),
        };
        let reserved = Reserved { ring, range };
        self.span = OpenSpan::Put(reserved);
        Ok(reserved)
    }
}

impl<T: Word, const N: usize, S: Stored<T>> HandInPlace<T, N, S> {
    /// Tries once to reserve a span of positions for a take: by bulk `n` of them, by burst at most `n`. Its words are
    /// copied to the front of the slice at once; they stay queued until the span is settled. At most three steps on
    /// words. Requires: the slice has `n` places, and the hand has no open span.
    ///
    /// Errors, in the order of the tests: `BadCount` if `n` is 0 or above `N`, before any step; `Busy`; `NoRoom`;
    /// `Worn`; `Contended`. No span is open then, and the slice is unchanged.
    #[inline(always)]
    pub fn try_start_take(
        &mut self,
        fabric: &Fabric<T, N, S>,
        ring: usize,
        n: usize,
        how: How,
        into: &mut [T],
    ) -> Result<Reserved, StartFault>
        requires of { IsPlacedOf fabric.now self.old }
        requires idle { self.old.span ≡ open_span.Idle }
        requires ring { ring < length (rings_of fabric.now) }
        requires fits { n ≤ length into.old }
        ensures of { IsPlacedOf fabric.now self.new }
        ensures started { IfOk result (λ r. (self.new.span ≡ open_span.Take r) × (r.ring ≡ ring)
            × OnRing fabric.now ring (λ plan. Starts T.numbers how n ring Take plan (placed_view self.old)
            r.range.start r.range.count r.range.left (placed_view self.new).shown (placed_view self.new))) }
        ensures copied { IfOk result (λ _. into.new
            ≡ (placed_view self.new).shown ++ drop (length (placed_view self.new).shown) into.old) }
        ensures refused { IfErr result (λ e. (self.new.span ≡ open_span.Idle) × (into.new ≡ into.old)
            × OnRing fabric.now ring (λ plan.
            IsRefused T.numbers N how n ring Take plan (placed_view self.old) (placed_view self.new) e)) }
        ensures may { IfOk result (λ _. OnRing fabric.now ring
            (λ plan. MayStart T.numbers N n Take plan (placed_view self.old))) }
        ensures opened { IfOk result
            (λ r. (placed_view self.new).party ≡ with_open (placed_view self.old).party (span_at Take r)) }
    {
        self.recent.left = 0;
        let mut front = Front {
            words: into,
            count: 0,
        };
        let range = match fabric
            .ring(ring)
            .open_take(&mut self.share, n, N, how, &mut front)
        {
            Ok(range) => range,
            Err(fault) => return Err(fault),
        };
        let reserved = Reserved { ring, range };
        self.span = OpenSpan::Take(reserved);
        Ok(reserved)
    }
}

impl<T: Tagged, const N: usize, S: Stored<T>> HandInPlace<T, N, S> {
    /// Tries once to publish words at the positions of the open span: on a multi side as many as it has, on an HTS side
    /// at most as many, and the other positions are given up. One step on a word at most. At a refusal the span stays
    /// open.
    ///
    /// Errors, in the order of the tests: `BadCount`, `NotYours`, before any step; `NotYet`.
    #[inline(always)]
    pub fn try_settle_put<I: PutItems<T>>(
        &mut self,
        fabric: &Fabric<T, N, S>,
        reserved: Reserved,
        items: &mut I,
    ) -> Result<(), SettleFault>
        requires of { IsPlacedOf fabric.now self.old }
        requires open { self.old.span ≡ open_span.Put reserved }
        ensures of { IsPlacedOf fabric.now self.new }
        ensures done { IfOk result (λ _. (self.new.span ≡ open_span.Idle)
            × OnRing fabric.now reserved.ring
            (λ plan. IsCount plan.put (length (I.items items.old)) reserved.range.count)
            × (placed_view self.new ≡ settled (span_at Put reserved) (I.items items.old) (placed_view self.old))
            × (I.items items.new ≡ I.left (I.items items.old) 0)) }
        ensures refused { IfErr result (λ e. (self.new.span ≡ self.old.span)
            × (I.items items.new ≡ I.items items.old) × OnRing fabric.now reserved.ring
            (λ plan. IsUnsettled T.numbers plan (span_at Put reserved) (length (I.items items.old)) (I.items items.old)
            (placed_view self.old) (placed_view self.new) e)) }
        ensures owned { IfOk result
            (λ _. HoldsLess T.numbers (placed_view self.old) (I.items items.old) (placed_view self.new)) }
    {
        self.recent.left = 0;
        let target = fabric.ring(reserved.ring);
        match target.settle_put(&mut self.share, reserved.range, items) {
            Ok(()) => {
                self.span = OpenSpan::Idle;
                Ok(())
            }
            Err(fault) => Err(fault),
        }
    }

    /// Tries once to take the words at the first `k` positions of the open span: on a multi side all, on an HTS side
    /// any number, and the others are queued again. One step on a word at most. At a refusal the span stays open.
    /// Requires: these are the words that the start copied.
    ///
    /// Errors, in the order of the tests: `BadCount`, before any step; `NotYet`.
    #[inline(always)]
    pub fn try_settle_take<I: Items<T>>(
        &mut self,
        fabric: &Fabric<T, N, S>,
        reserved: Reserved,
        k: usize,
        items: &mut I,
    ) -> Result<(), SettleFault>
        requires of { IsPlacedOf fabric.now self.old }
        requires open { self.old.span ≡ open_span.Take reserved }
        requires shows { (I.items items.old) ≡ (placed_view self.old).shown }
        ensures of { IsPlacedOf fabric.now self.new }
        ensures done { IfOk result (λ _. (self.new.span ≡ open_span.Idle)
            × OnRing fabric.now reserved.ring (λ plan. IsCount plan.take k reserved.range.count)
            × (placed_view self.new
            ≡ settled (span_at Take reserved) (take k (I.items items.old)) (placed_view self.old))
            × (I.items items.new ≡ I.left (I.items items.old) k)) }
        ensures refused { IfErr result (λ e. (self.new.span ≡ self.old.span) × (I.items items.new ≡ I.items items.old)
            × ((placed_view self.new).shown ≡ (placed_view self.old).shown) × OnRing fabric.now reserved.ring
            (λ plan. IsUnsettled T.numbers plan (span_at Take reserved) k [] (placed_view self.old)
            (placed_view self.new) e)) }
        ensures apart { IfOk result (λ _. AreDistinct (flat_map T.numbers (take k (I.items items.old)))) }
        ensures named { IfErr result (λ e. e ≡ NotYours → ⊥) }
        ensures owned { IfOk result
            (λ _. HoldsMore T.numbers (placed_view self.old) (take k (I.items items.old)) (placed_view self.new)) }
    {
        self.recent.left = 0;
        let target = fabric.ring(reserved.ring);
        match target.settle_take(&mut self.share, reserved.range, k, items) {
            Ok(()) => {
                self.span = OpenSpan::Idle;
                Ok(())
            }
            Err(fault) => Err(fault),
        }
    }

    /// Tries once to take all words of the open span, which needn't be given again: `try_settle_take` with all of them.
    /// Requires: they carry no buffer.
    #[inline(always)]
    pub fn try_settle_all_taken(
        &mut self,
        fabric: &Fabric<T, N, S>,
        reserved: Reserved,
    ) -> Result<(), SettleFault>
        requires of { IsPlacedOf fabric.now self.old }
        requires open { self.old.span ≡ open_span.Take reserved }
        requires plain { flat_map T.numbers (placed_view self.old).shown ≡ [] }
        ensures of { IsPlacedOf fabric.now self.new }
        ensures done { IfOk result (λ _. (self.new.span ≡ open_span.Idle) × (placed_view self.new
            ≡ settled (span_at Take reserved) (placed_view self.old).shown (placed_view self.old))) }
        ensures refused { IfErr result (λ e. (self.new.span ≡ self.old.span)
            × ((placed_view self.new).shown ≡ (placed_view self.old).shown) × OnRing fabric.now reserved.ring
            (λ plan. IsUnsettled T.numbers plan (span_at Take reserved) reserved.range.count []
            (placed_view self.old) (placed_view self.new) e)) }
    {
        self.recent.left = 0;
        let target = fabric.ring(reserved.ring);
        match target.settle_all_taken(&mut self.share, reserved.range) {
            Ok(()) => {
                self.span = OpenSpan::Idle;
                Ok(())
            }
            Err(fault) => Err(fault),
        }
    }
}
