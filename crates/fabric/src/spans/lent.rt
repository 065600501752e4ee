//! Open spans, and how they are settled.
ghost use Rattle.std.specs.Prelude.{◌≡◌, ◌≤◌, [], length, take, IfOk, IfErr};
ghost use Rattle.std.specs.List.{flat_map};
ghost use Rattle.fabric.specs.Hands.{RefusesPut, RefusesTake, HasPut, HasTaken, SamePut, SameTake, put_left};
ghost use Rattle.fabric.specs.Hands.{put_span, put_view, take_left, take_span, take_view, view};
ghost use Rattle.fabric.specs.Settles.{HoldsLess, HoldsMore};
ghost use Rattle.burst.specs.Numbers.{AreDistinct};
ghost use Rattle.fabric.specs.declared.hand.SettleFault.TheVariants.{NotYours};
ghost use Rattle.geom.specs.declared.plan.Mode.TheVariants.{Hts};

use crate::hand::{Hand, PutOpen, SettleFault, Share, TakeOpenLent};
use crate::items::{Items, PutItems};
use crate::stored::Stored;
use burst::Tagged;
use geom::Side;

impl<'f, T: Tagged, const N: usize, S: Stored<T>> PutOpen<'f, T, N, S> {
    /// The first position of the span.
    pub fn start(&self) -> u64
        ensures { result ≡ (put_span self.now).start }
    {
        self.range.start
    }

    /// How many positions the span has, 1 to `N`.
    #[inline]
    pub fn count(&self) -> usize
        ensures { result ≡ (put_span self.now).count }
    {
        self.range.count
    }

    /// How many more positions were free when the span was reserved.
    pub fn left(&self) -> u64
        ensures { result ≡ put_left self.now }
    {
        self.range.left
    }

    /// Tries once to publish the items of a list at the positions of the span: on a multi side as many as it has, on an
    /// HTS side at most as many, and the other positions are given up. One step on a word at most. A burst is empty
    /// afterwards; at a refusal the list is unchanged, and the span stays open.
    ///
    /// Errors, in the order of the tests: `BadCount`, `NotYours`, before any step; `NotYet`.
    #[inline]
    pub fn try_settle_from<I: PutItems<T>>(
        self,
        items: &mut I,
    ) -> Result<Hand<T, S>, (PutOpen<'f, T, N, S>, SettleFault)>
        ensures done { IfOk result (λ h. HasPut self.entry (I.items items.old) h
            × (I.items items.new ≡ I.left (I.items items.old) 0)) }
        ensures refused { IfErr result (λ e. SamePut self.entry e.0 × (I.items items.new ≡ I.items items.old)
            × RefusesPut T.numbers self.entry (I.items items.old) e.0 e.1) }
        ensures owned { IfOk result (λ h. HoldsLess T.numbers (put_view self.entry) (I.items items.old) (view h)) }
    {
        let PutOpen {
            ring,
            mut share,
            range,
        } = self;
        match ring.settle_put(&mut share, range, items) {
            Ok(()) => Ok(Hand { share }),
            Err(fault) => Err((PutOpen { ring, share, range }, fault)),
        }
    }

    /// `try_settle_from` with the first `k` items of a list alone: the others stay in it, as all do at a refusal.
    /// Requires: there are that many.
    #[inline]
    pub fn try_settle_first_from<I: PutItems<T>>(
        self,
        k: usize,
        items: &mut I,
    ) -> Result<Hand<T, S>, (PutOpen<'f, T, N, S>, SettleFault)>
        requires fits { k ≤ length (I.items items.old) }
        ensures done { IfOk result (λ h. HasPut self.entry (take k (I.items items.old)) h
            × (I.items items.new ≡ I.after (I.items items.old) k)) }
        ensures refused { IfErr result (λ e. SamePut self.entry e.0 × (I.items items.new ≡ I.items items.old)
            × RefusesPut T.numbers self.entry (take k (I.items items.old)) e.0 e.1) }
        ensures owned { IfOk result
            (λ h. HoldsLess T.numbers (put_view self.entry) (take k (I.items items.old)) (view h)) }
    {
        let PutOpen {
            ring,
            mut share,
            range,
        } = self;
        match ring.settle_put_first(&mut share, range, k, items) {
            Ok(()) => Ok(Hand { share }),
            Err(fault) => Err((PutOpen { ring, share, range }, fault)),
        }
    }

    /// Gives up all positions of a span on a head/tail-sync side: `try_settle_from` with no item, without a burst.
    /// Requires: the span is on such a side. One step on a word.
    pub fn abort(self) -> Hand<T, S>
        requires hts { self.ring.shape.now.plan.put ≡ Hts }
        ensures { HasPut self.entry [] result }
    {
        let PutOpen { ring, share, range } = self;
        let Share {
            mut seat,
            owned,
            parts,
        } = share;
        ring.store(&mut seat, Side::Put, range.start, 0);
        Hand {
            share: Share { seat, owned, parts },
        }
    }
}

impl<'f, T: Tagged, const N: usize, S: Stored<T>> TakeOpenLent<'f, T, N, S> {
    /// The first position of the span.
    pub fn start(&self) -> u64
        ensures { result ≡ (take_span self.now).start }
    {
        self.range.start
    }

    /// How many positions the span has, 1 to `N`.
    #[inline]
    pub fn count(&self) -> usize
        ensures { result ≡ (take_span self.now).count }
    {
        self.range.count
    }

    /// How many more items were queued when the span was reserved.
    pub fn left(&self) -> u64
        ensures { result ≡ take_left self.now }
    {
        self.range.left
    }

    /// Tries once to take the items at the first `k` positions of the span: on a multi side all, on an HTS side any
    /// number, and the other items are queued again. One step on a word at most. A burst has the items that were taken
    /// afterwards; at a refusal the list is unchanged, and the span stays open. Requires: the list has the items that
    /// the start showed.
    ///
    /// Errors, in the order of the tests: `BadCount`, before any step; `NotYet`.
    #[inline]
    pub fn try_settle_into<I: Items<T>>(
        self,
        k: usize,
        items: &mut I,
    ) -> Result<Hand<T, S>, (TakeOpenLent<'f, T, N, S>, SettleFault)>
        requires shows { I.items items.old ≡ (take_view self).shown }
        ensures done { IfOk result (λ h. HasTaken self.entry k (I.items items.old) h
            × (I.items items.new ≡ I.left (I.items items.old) k)) }
        ensures refused { IfErr result (λ e. SameTake self.entry e.0 × (I.items items.new ≡ I.items items.old)
            × RefusesTake T.numbers self.entry k e.0 e.1) }
        ensures apart { IfOk result (λ _. AreDistinct (flat_map T.numbers (take k (I.items items.old)))) }
        ensures named { IfErr result (λ e. e.1 ≡ NotYours → ⊥) }
        ensures owned { IfOk result
            (λ h. HoldsMore T.numbers (take_view self.entry) (take k (I.items items.old)) (view h)) }
        ensures beside { (before : I) → I.beside before items.old → I.beside before items.new }
    {
        let TakeOpenLent {
            ring,
            mut share,
            range,
        } = self;
        match ring.settle_take(&mut share, range, k, items) {
            Ok(()) => Ok(Hand { share }),
            Err(fault) => Err((TakeOpenLent { ring, share, range }, fault)),
        }
    }
}
