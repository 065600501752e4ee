//! How many items are queued on a ring.
ghost use Rattle.std.specs.Prelude.{◌≡◌, ◌<◌, ℕ, length};
ghost use Rattle.geom.specs.Plan.{mode_of};
ghost use Rattle.ringcore_laws.specs.History.{position_of};
ghost use Rattle.fabric_laws.specs.Changes.{loaded};
ghost use Rattle.fabric_laws.specs.Refusals.{Was};
ghost use Rattle.fabric_laws.specs.Words.{settled_word_at};
ghost use Rattle.fabric.specs.Counts.{CountsQueued};
ghost use Rattle.fabric.specs.Hands.{IsHandOf, OnRing, rings_of, view};
ghost use Rattle.fabric.specs.InPlace.{IsPlacedOf, placed_view};
ghost use Rattle.fabric.specs.Rings.{IsSameSeat, IsSeated};

use crate::fabric::Fabric;
use crate::hand::Hand;
use crate::hand::in_place::HandInPlace;
use crate::ring::Ring;
use crate::stored::{Cell, Stored};
use crate::words::step_kinds::Counts;
use atomic_table::Seat;
use burst::Tagged;
use fabric_laws::View;
use geom::Side;

impl<T: Tagged, const N: usize, S: Stored<T>> Ring<'_, T, N, S> {
    /// How far a side is settled, by one load.
    fn settled_up_to(&self, seat: &mut Seat<Cell<T, S>, View<T>>, side: Side) -> u64
        requires seat { IsSeated self.now seat.old }
        ensures seat { IsSameSeat seat.old seat.new × (seat.new.me.1 ≡ seat.old.me.1) }
        ensures view { seat.new.me.0 ≡ loaded seat.old.me.0 }
        ensures was { (x : ℕ)
            × (result ≡ position_of self.now.shape.now.plan.geometry (mode_of self.now.shape.now.plan side) x)
            × Was T.numbers seat.old.me.0
            (settled_word_at (mode_of self.now.shape.now.plan side) self.now.index side) x }
    {
        let found = self
            .fabric
            .table
            .shared
            .load::<Counts>(seat, self.shape.settled_word(self.index, side));
        self.shape.position(side, found)
    }

    /// How many items are queued: those that were published when the put side was looked at, and not settled as taken
    /// when the take side was, just before. At most the ring's capacity, as `rte_ring_count` has it.
    fn count(&self, seat: &mut Seat<Cell<T, S>, View<T>>) -> u64
        requires seat { IsSeated self.now seat.old }
        ensures seat { IsSameSeat seat.old seat.new × (seat.new.me.1 ≡ seat.old.me.1) }
        ensures view { seat.new.me.0 ≡ loaded (loaded seat.old.me.0) }
        ensures found { CountsQueued T.numbers self.now.index self.now.shape.now.plan seat.old.me.0 result }
    {
        let taken = self.settled_up_to(seat, Side::Take);
        let put = self.settled_up_to(seat, Side::Put);
        put.saturating_sub(taken)
            .min(self.shape.plan.geometry.capacity())
    }
}

impl<T: Tagged, const N: usize, S: Stored<T>> Fabric<T, N, S> {
    /// How many items are queued on a ring, with the items of open takes. Two loads, which aren't counted among the
    /// steps: others may have put or taken between them and since. Takes no memory.
    pub fn count(&self, hand: Hand<T, S>, ring: usize) -> (Hand<T, S>, u64)
        requires hand { IsHandOf self.now hand }
        requires ring { ring < length (rings_of self.now) }
        ensures hand { IsHandOf self.now result.0 }
        ensures view { view result.0 ≡ loaded (loaded (view hand)) }
        ensures found { OnRing self.now ring (λ plan. CountsQueued T.numbers ring plan (view hand) result.1) }
    {
        let Hand { mut share } = hand;
        let count = self.ring(ring).count(&mut share.seat);
        (Hand { share }, count)
    }
}

impl<T: Tagged, const N: usize, S: Stored<T>> HandInPlace<T, N, S> {
    /// `Fabric::count` by a hand that stays where it is, with a span open or without.
    pub fn count(&mut self, fabric: &Fabric<T, N, S>, ring: usize) -> u64
        requires of { IsPlacedOf fabric.now self.old }
        requires ring { ring < length (rings_of fabric.now) }
        ensures of { IsPlacedOf fabric.now self.new }
        ensures span { self.new.span ≡ self.old.span }
        ensures view { placed_view self.new ≡ loaded (loaded (placed_view self.old)) }
        ensures found { OnRing fabric.now ring
            (λ plan. CountsQueued T.numbers ring plan (placed_view self.old) result) }
    {
        self.recent.left = 0;
        fabric.ring(ring).count(&mut self.share.seat)
    }
}
