//! Whole puts and takes of one item on a ring whose place is known. They don't say how many more positions are free, or
//! queued: a hand that makes one after the other on the same side needs no look at the side then, nor at the other one,
//! as long as the room lasts that it saw.
ghost use Rattle.std.specs.Prelude.{◌≡◌, ◌<◌, ◌++◌, ◌^◌, [], drop, length, take, IfOk, IfErr};
ghost use Rattle.geom.specs.declared.plan.Side.TheVariants.{Put, Take};
ghost use Rattle.fabric.specs.InPlace.{IsPlacedOf, placed_view};
ghost use Rattle.fabric.specs.OneCalls.{MovesOne, RefusesPutOne, RefusesTakeOne};
ghost use Rattle.fabric.specs.Places.{HasCounts, IsKnown, IsPlaceOf, place_ring};
ghost use Rattle.fabric.specs.declared.hand.in_place.OpenSpan.TheVariants as open_span;

use crate::fabric::Fabric;
use crate::hand::in_place::{HandInPlace, OpenSpan, Reserved, WholeFault};
use crate::items::PutItems;
use crate::items::front::Front;
use crate::items::words::Words;
use crate::place::{Known, Place};
use crate::stored::Stored;
use burst::{Tagged, Word};
use geom::Side;

impl<T: Tagged, const N: usize, S: Stored<T>> HandInPlace<T, N, S> {
    /// `try_put_at` of one item, by bulk. Its start is one step if the last one of this hand was such a put too, on the
    /// same ring, and nobody else has put there since.
    #[inline(always)]
    pub fn try_put_one_at<I: PutItems<T>>(
        &mut self,
        fabric: &Fabric<T, N, S>,
        place: &Place,
        known: Known,
        items: &mut I,
        most: usize,
    ) -> Result<Reserved, WholeFault>
        requires of { IsPlacedOf fabric.now self.old }
        requires idle { self.old.span ≡ open_span.Idle }
        requires place { IsPlaceOf fabric.now place.now }
        requires known { IsKnown place.now Put known }
        requires counts { HasCounts place.now Put most }
        requires small { N < most → most < 2 ^ 20 }
        requires one { length (I.items items.old) ≡ 1 }
        ensures of { IsPlacedOf fabric.now self.new }
        ensures done { IfOk result (λ r. (self.new.span ≡ open_span.Idle) × MovesOne T.numbers fabric.now most
            (place_ring place.now) (placed_view self.old) Put r [] (take r.range.count (I.items items.old))
            (placed_view self.new) × (I.items items.new ≡ I.after (I.items items.old) r.range.count)) }
        ensures refused { IfErr result (λ e. RefusesPutOne T.numbers fabric.now most (place_ring place.now)
            (placed_view self.old) (I.items items.old) self.new.span (placed_view self.new) e
            × (I.items items.new ≡ I.items items.old)) }
    {
        let target = fabric.at(place, Side::Put, known);
        let range = match target.open_one(&mut self.share, Side::Put, most, &mut self.recent) {
            Ok(range) => range,
            Err(fault) => return Err(WholeFault::Start(fault)),
        };
        let reserved = Reserved {
            ring: place.index,
            range,
        };
        match target.settle_put_first(&mut self.share, range, range.count, items) {
            Ok(()) => Ok(reserved),
            Err(fault) => {
                self.recent.left = 0;
                self.span = OpenSpan::Put(reserved);
                Err(WholeFault::Settle(reserved, fault))
            }
        }
    }
}

impl<T: Word, const N: usize, S: Stored<T>> HandInPlace<T, N, S> {
    /// `try_take_at` of one word, by bulk. Its start is one step if the last one of this hand was such a take too, on
    /// the same ring, and nobody else has taken there since.
    #[inline(always)]
    pub fn try_take_one_at(
        &mut self,
        fabric: &Fabric<T, N, S>,
        place: &Place,
        known: Known,
        into: &mut [T],
        most: usize,
    ) -> Result<Reserved, WholeFault>
        requires of { IsPlacedOf fabric.now self.old }
        requires idle { self.old.span ≡ open_span.Idle }
        requires place { IsPlaceOf fabric.now place.now }
        requires known { IsKnown place.now Take known }
        requires counts { HasCounts place.now Take most }
        requires small { N < most → most < 2 ^ 20 }
        requires one { length into.old ≡ 1 }
        ensures of { IsPlacedOf fabric.now self.new }
        ensures done { IfOk result (λ r. (self.new.span ≡ open_span.Idle)
            × (into.new ≡ take r.range.count into.new ++ drop r.range.count into.old)
            × (length (take r.range.count into.new) ≡ r.range.count)
            × MovesOne T.numbers fabric.now most (place_ring place.now) (placed_view self.old) Take r
            (take r.range.count into.new) (take r.range.count into.new) (placed_view self.new)) }
        ensures refused { IfErr result (λ e. RefusesTakeOne T.numbers fabric.now most (place_ring place.now)
            (placed_view self.old) into.old into.new self.new.span (placed_view self.new) e) }
    {
        let target = fabric.at(place, Side::Take, known);
        let range = match target.open_one(&mut self.share, Side::Take, most, &mut self.recent) {
            Ok(range) => range,
            Err(fault) => return Err(WholeFault::Start(fault)),
        };
        let count = range.count;
        let mut front = Front {
            words: &mut *into,
            count: 0,
        };
        target.move_out(&mut self.share, range, &mut front);
        let reserved = Reserved {
            ring: place.index,
            range,
        };
        match target.settle_take(
            &mut self.share,
            range,
            count,
            &mut Words {
                words: &into[..count],
            },
        ) {
            Ok(()) => Ok(reserved),
            Err(fault) => {
                self.recent.left = 0;
                self.span = OpenSpan::Take(reserved);
                Err(WholeFault::Settle(reserved, fault))
            }
        }
    }
}
