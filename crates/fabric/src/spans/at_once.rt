//! Reserving one position at once: by an exchange of an own word that isn't looked at, within the room that the hand
//! saw when it was last on this side. It then needs neither of the two loads of a start, and doesn't touch the word
//! that the other side changes.
ghost use Rattle.std.specs.Prelude.{◌≡◌, ◌≢◌, ◌+◌, ◌%◌, ◌<◌, ◌≤◌, ◌⊎◌, true, false, IfErr, IfNone, IfOk, IfSome};
ghost use Rattle.geom.specs.Extent.{range_of};
ghost use Rattle.geom.specs.Plan.{mode_of};
ghost use Rattle.geom.specs.declared.plan.How.TheVariants.{Bulk};
ghost use Rattle.geom.specs.declared.plan.Mode.TheVariants.{Hts};
ghost use Rattle.ringcore_laws.specs.History.{position_of};
ghost use Rattle.fabric_laws.specs.declared.view.View.{View};
ghost use Rattle.fabric.specs.AtOnce.{HasStartedOne, IsLoaded, IsRecent};
ghost use Rattle.fabric.specs.InPlace.{Remembers, RemembersNone};
ghost use Rattle.fabric.specs.OpenSpans.{HasStarted, IsIdle};
ghost use Rattle.fabric.specs.Places.{IsPlaceOf, place_ring};
ghost use Rattle.fabric.specs.Refused.{IsRefused};
ghost use Rattle.fabric.specs.Rings.{IsSeated};
ghost use Rattle.fabric_laws.specs.Words.{own_at};

use crate::fabric::Fabric;
use crate::hand::in_place::HandInPlace;
use crate::hand::recent::Recent;
use crate::hand::{Share, StartFault};
use crate::place::Place;
use crate::ring::{Positions, Ring};
use crate::stored::Stored;
use crate::words::offsets::own_word;
use burst::Tagged;
use geom::{How, Mode, Side};

impl<T: Tagged, const N: usize, S: Stored<T>> Ring<'_, T, N, S> {
    /// The own word of a side at a position, with nothing reserved.
    #[inline(always)]
    fn word_from(&self, side: Side, position: u64) -> u64
        requires { position ≤ self.now.shape.now.plan.geometry.last }
        ensures at { position_of self.now.shape.now.plan.geometry (mode_of self.now.shape.now.plan side) result
            ≡ position }
        ensures whole { mode_of self.now.shape.now.plan side ≡ Hts
            → result % range_of self.now.shape.now.plan.geometry ≡ 0 }
    {
        match self.mode(side) {
            Mode::Multi => position,
            Mode::Hts => self.shape.plan.geometry.word(position, 0),
        }
    }

    /// What a hand remembers of a side after a start there. Requires: the span doesn't pass the last position.
    #[inline(always)]
    fn after(&self, side: Side, range: Positions) -> Recent
        requires { range.start + range.count ≤ self.now.shape.now.plan.geometry.last }
        ensures own { result.own ≡ own_at self.now.index side }
        ensures word { position_of self.now.shape.now.plan.geometry (mode_of self.now.shape.now.plan side) result.word
            ≡ range.start + range.count }
        ensures whole { mode_of self.now.shape.now.plan side ≡ Hts
            → result.word % range_of self.now.shape.now.plan.geometry ≡ 0 }
        ensures left { result.left ≡ range.left }
    {
        Recent {
            own: own_word(self.index, side),
            word: self.word_from(side, range.start + range.count as u64),
            left: range.left,
        }
    }

    /// Whether a hand remembers something of a side.
    #[inline(always)]
    pub(crate) fn is_recent(&self, side: Side, recent: Recent) -> bool
        ensures yes { result ≡ true → (0 < recent.left) × (recent.own ≡ own_at self.now.index side) }
        ensures no { result ≡ false → (recent.left ≡ 0) ⊎ (recent.own ≢ own_at self.now.index side) }
    {
        recent.left != 0 && recent.own == own_word(self.index, side)
    }

    /// Opens a span of one position by one step, if what the hand remembers of the side leaves room for it, and nobody
    /// has been on the side since. At `None` the share is as it was, but for a load. It isn't said how many more are
    /// free, or queued. Requires: as `open_span`.
    #[inline(always)]
    fn open_at_once(
        &self,
        share: &mut Share<T, S>,
        side: Side,
        most: usize,
        recent: &mut Recent,
    ) -> Option<Positions>
        requires seat { IsSeated self.now share.old.seat }
        requires idle { IsIdle share.old.seat }
        requires counts { mode_of self.now.shape.now.plan side ≡ Hts
            → most < range_of self.now.shape.now.plan.geometry }
        requires recent { 0 < recent.old.left → IsRecent recent.old share.old.seat.me.0 }
        ensures started { IfSome result
            (λ range. HasStartedOne T.numbers most side self.now share.old.seat.me.0 share.new.seat range) }
        ensures recent { 0 < recent.new.left → IsRecent recent.new share.new.seat.me.0 }
        ensures none { IfNone result (IsSeated self.now share.new.seat × IsIdle share.new.seat
            × IsLoaded share.old.seat.me.0 share.new.seat.me.0) }
    {
        if !self.is_recent(side, *recent) || self.is_bad_count(&share.owned, side, 1, most) {
            return None;
        }
        let word = recent.word;
        let start = self.shape.position(side, word);
        if start >= self.shape.plan.geometry.last() {
            return None;
        }
        let found = self.reserve_at_once(&mut share.seat, side, word);
        if found != word {
            recent.left = 0;
            return None;
        }
        recent.word = self.word_from(side, start + 1);
        recent.left -= 1;
        Some(Positions {
            start,
            count: 1,
            left: 0,
        })
    }

    /// Opens a span of one position: at once, if what the hand remembers allows it, or else as `open_span` does. A lost
    /// exchange counts as a load. `recent` is what the hand remembers, before and after.
    #[inline(always)]
    pub(crate) fn open_one(
        &self,
        share: &mut Share<T, S>,
        side: Side,
        most: usize,
        recent: &mut Recent,
    ) -> Result<Positions, StartFault>
        requires seat { IsSeated self.now share.old.seat }
        requires idle { IsIdle share.old.seat }
        requires counts { mode_of self.now.shape.now.plan side ≡ Hts
            → most < range_of self.now.shape.now.plan.geometry }
        requires recent { 0 < recent.old.left → IsRecent recent.old share.old.seat.me.0 }
        ensures started { IfOk result (λ range. (v : View T) × IsLoaded share.old.seat.me.0 v
            × HasStartedOne T.numbers most side self.now v share.new.seat range) }
        ensures recent { 0 < recent.new.left → IsRecent recent.new share.new.seat.me.0 }
        ensures refused { IfErr result (λ e. IsSeated self.now share.new.seat × IsIdle share.new.seat
            × ((v : View T) × IsLoaded share.old.seat.me.0 v × IsRefused T.numbers most Bulk 1 self.now.index side
            self.now.shape.now.plan v share.new.seat.me.0 e)) }
    {
        match self.open_at_once(share, side, most, recent) {
            Some(range) => return Ok(range),
            None => (),
        }
        recent.left = 0;
        let range = match self.open_span(share, side, 1, most, How::Bulk) {
            Ok(range) => range,
            Err(fault) => return Err(fault),
        };
        *recent = self.after(side, range);
        Ok(range)
    }
}

impl<T: Tagged, const N: usize, S: Stored<T>> HandInPlace<T, N, S> {
    /// Forgets what the last put or take left, so that the next one begins with a look. No step on a word.
    #[inline(always)]
    pub fn forget(&mut self)
        ensures same { self.new.share ≡ self.old.share }
        ensures span { self.new.span ≡ self.old.span }
        ensures none { RemembersNone self.new }
    {
        self.recent.left = 0;
    }

    /// Whether the start of a put, or take, of one item on a ring would be tried at once. Requires: the place is one of
    /// the fabric.
    #[inline(always)]
    pub fn is_recent_at(&self, fabric: &Fabric<T, N, S>, place: &Place, side: Side) -> bool
        requires place { IsPlaceOf fabric.now place.now }
        ensures yes { result ≡ true → Remembers self.now (place_ring place.now) side }
        ensures no { result ≡ false → Remembers self.now (place_ring place.now) side → ⊥ }
    {
        fabric
            .at(place, side, place.known(side))
            .is_recent(side, self.recent)
    }
}
