//! Settling a take as a whole, without its items.
ghost use Rattle.std.specs.Prelude.{◌≡◌, [], length, replicate, None, Some, IfOk, IfErr};
ghost use Rattle.std.specs.List.{flat_map};
ghost use Rattle.geom.specs.declared.plan.Side.TheVariants.{Take};
ghost use Rattle.fabric_laws.specs.Changes.{settled};
ghost use Rattle.fabric.specs.Rings.{IsSameSeat, IsSeated, slots_of};
ghost use Rattle.fabric.specs.Refused.{IsUnsettled};
ghost use Rattle.fabric.specs.Views.{span_of};

use crate::hand::{SettleFault, Share};
use crate::ring::{Positions, Ring};
use crate::stored::Stored;
use burst::Tagged;
use geom::Side;

impl<T: Tagged, const N: usize, S: Stored<T>> Ring<'_, T, N, S> {
    /// Takes all items of a take span, which aren't given again. If an earlier span of a multi side isn't settled,
    /// nothing is done. Requires: the items carry no buffer.
    #[inline(always)]
    pub(crate) fn settle_all_taken(
        &self,
        share: &mut Share<T, S>,
        range: Positions,
    ) -> Result<(), SettleFault>
        requires seat { IsSeated self.now share.old.seat }
        requires whole { length share.old.seat.me.0.shown ≡ range.count }
        requires plain { flat_map T.numbers share.old.seat.me.0.shown ≡ [] }
        requires span { share.old.seat.me.0.party.span ≡ Some (span_of self.now.index Take range.start range.count) }
        requires slots { share.old.seat.me.1 ≡ slots_of self.now range.start (replicate range.count None) }
        ensures seat { IsSameSeat share.old.seat share.new.seat }
        ensures done { IfOk result (λ _. (share.new.seat.me.0 ≡ settled
            (span_of self.now.index Take range.start range.count) share.old.seat.me.0.shown share.old.seat.me.0)
            × (share.new.seat.me.1 ≡ [])) }
        ensures refused { IfErr result (λ e. (share.new.seat.me.1 ≡ share.old.seat.me.1) × IsUnsettled T.numbers
            self.now.shape.now.plan (span_of self.now.index Take range.start range.count) range.count []
            share.old.seat.me.0 share.new.seat.me.0 e) }
        ensures shown { IfErr result (λ e. share.new.seat.me.0.shown ≡ share.old.seat.me.0.shown) }
    {
        match self.commit(&mut share.seat, Side::Take, range, range.count) {
            None => Ok(()),
            Some(tail) => Err(SettleFault::NotYet(tail)),
        }
    }
}
