//! Whole puts and takes of words by a hand that stays where it is: a start and its settle, each tried once.
ghost use Rattle.std.specs.Prelude.{◌≡◌, ◌<◌, ◌++◌, [], drop, length, take, IfOk, IfErr};
ghost use Rattle.geom.specs.declared.plan.Side.TheVariants.{Put, Take};
ghost use Rattle.fabric.specs.Hands.{rings_of};
ghost use Rattle.fabric.specs.InPlace.{IsPlacedOf, placed_view};
ghost use Rattle.fabric.specs.WholeCalls.{HasMoved, RefusesPut, RefusesTake};
ghost use Rattle.fabric.specs.declared.hand.in_place.OpenSpan.TheVariants as open_span;

use crate::fabric::Fabric;
use crate::hand::in_place::{HandInPlace, Reserved, WholeFault};
use crate::items::PutItems;
use crate::stored::Stored;
use burst::{Tagged, Word};
use geom::{How, Side};

impl<T: Tagged, const N: usize, S: Stored<T>> HandInPlace<T, N, S> {
    /// Tries once to put the first of these words: by bulk all, by burst as many as there is room for. At most four
    /// steps on words. It returns where they were put. Requires: the hand has no open span.
    ///
    /// Errors: `Start` with the fault of `try_start_put`, and no span is open; `Settle` with that of `try_settle_put`,
    /// and the span stays open.
    #[inline(always)]
    pub fn try_put<I: PutItems<T>>(
        &mut self,
        fabric: &Fabric<T, N, S>,
        ring: usize,
        items: &mut I,
        how: How,
    ) -> Result<Reserved, WholeFault>
        requires of { IsPlacedOf fabric.now self.old }
        requires idle { self.old.span ≡ open_span.Idle }
        requires ring { ring < length (rings_of fabric.now) }
        ensures of { IsPlacedOf fabric.now self.new }
        ensures done { IfOk result (λ r. (self.new.span ≡ open_span.Idle) × HasMoved T.numbers fabric.now N how
            (length (I.items items.old)) ring (placed_view self.old) Put r [] (take r.range.count (I.items items.old))
            (placed_view self.new) × (I.items items.new ≡ I.after (I.items items.old) r.range.count)) }
        ensures refused { IfErr result (λ e. RefusesPut T.numbers fabric.now N how (length (I.items items.old)) ring
            (placed_view self.old) (I.items items.old) self.new.span (placed_view self.new) e
            × (I.items items.new ≡ I.items items.old)) }
    {
        let place = fabric.place(ring);
        let known = place.known(Side::Put);
        self.try_put_at(fabric, &place, known, items, N, how)
    }
}

impl<T: Word, const N: usize, S: Stored<T>> HandInPlace<T, N, S> {
    /// Tries once to take words to the front of a slice: by bulk as many as it has places, by burst as many as are
    /// queued. At most four steps on words. It returns where they were. Requires: the hand has no open span.
    ///
    /// Errors: `Start` with the fault of `try_start_take`, and no span is open and the slice is unchanged; `Settle`
    /// with that of `try_settle_take`, and the span stays open and shows its words at the front of the slice.
    #[inline(always)]
    pub fn try_take(
        &mut self,
        fabric: &Fabric<T, N, S>,
        ring: usize,
        into: &mut [T],
        how: How,
    ) -> Result<Reserved, WholeFault>
        requires of { IsPlacedOf fabric.now self.old }
        requires idle { self.old.span ≡ open_span.Idle }
        requires ring { ring < length (rings_of fabric.now) }
        ensures of { IsPlacedOf fabric.now self.new }
        ensures done { IfOk result (λ r. (self.new.span ≡ open_span.Idle)
            × (into.new ≡ take r.range.count into.new ++ drop r.range.count into.old)
            × (length (take r.range.count into.new) ≡ r.range.count)
            × HasMoved T.numbers fabric.now N how (length into.old) ring (placed_view self.old) Take r
            (take r.range.count into.new) (take r.range.count into.new) (placed_view self.new)) }
        ensures refused { IfErr result (λ e. RefusesTake T.numbers fabric.now N how (length into.old) ring
            (placed_view self.old) into.old into.new self.new.span (placed_view self.new) e) }
    {
        let place = fabric.place(ring);
        let known = place.known(Side::Take);
        self.try_take_at(fabric, &place, known, into, N, how)
    }
}
