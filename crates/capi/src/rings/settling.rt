//! Settles of spans. Each is tried once.
ghost use Rattle.std.specs.Prelude.{◌≡◌, length, take, IfOk, IfErr};
ghost use Rattle.geom.specs.declared.plan.Side.TheVariants.{Put, Take};
ghost use Rattle.fabric.specs.Hands.{OnRing, rings_of};
ghost use Rattle.fabric.specs.Held.{span_at};
ghost use Rattle.fabric.specs.InPlace.{IsPlacedOf, placed_view};
ghost use Rattle.fabric.specs.Settles.{IsCount};
ghost use Rattle.fabric.specs.declared.hand.in_place.OpenSpan.TheVariants as open_span;
ghost use Rattle.capi.specs.Members.{ArePlain};
ghost use Rattle.capi.specs.Spans.{HasSettled, IsEarly};
ghost use Rattle.capi.specs.declared.rings.fault.Fault.TheVariants as fault;

use crate::rings::fault::Fault;
use crate::rings::member::{Rings, WordHand};
use crate::rings::word64::Word64;
use fabric::{Reserved, Words};

/// Publishes words at the first positions of the open span: all of them if the side is multi. Errors: `Pending`, and
/// the span stays open, if an earlier span of the side isn't settled yet.
#[inline(always)]
pub(crate) fn publish(
    f: &Rings,
    hand: &mut WordHand,
    reserved: Reserved,
    words: &[Word64],
) -> Result<(), Fault>
    requires of { IsPlacedOf f.now hand.old }
    requires open { hand.old.span ≡ open_span.Put reserved }
    requires plain { ArePlain (rings_of f.now) }
    requires count { OnRing f.now reserved.ring
        (λ plan. IsCount plan.put (length words.now) reserved.range.count) }
    ensures of { IsPlacedOf f.now hand.new }
    ensures done { IfOk result (λ _. (hand.new.span ≡ open_span.Idle)
        × HasSettled (span_at Put reserved) words.now (placed_view hand.old) (placed_view hand.new)) }
    ensures early { IfErr result (λ why. (why ≡ fault.Pending) × (hand.new.span ≡ hand.old.span)
        × IsEarly f.now (span_at Put reserved) (placed_view hand.old) (placed_view hand.new)) }
{
    match hand.try_settle_put(f, reserved, &mut Words { words }) {
        Ok(()) => Ok(()),
        Err(_fault) => Err(Fault::Pending),
    }
}

/// Takes the first `k` words of the open span, which its start copied: all of them if the side is multi. Errors:
/// `Pending`, and the span stays open, if an earlier span of the side isn't settled yet.
#[inline(always)]
pub(crate) fn withdraw(
    f: &Rings,
    hand: &mut WordHand,
    reserved: Reserved,
    k: usize,
    words: &[Word64],
) -> Result<(), Fault>
    requires of { IsPlacedOf f.now hand.old }
    requires open { hand.old.span ≡ open_span.Take reserved }
    requires shows { words.now ≡ (placed_view hand.old).shown }
    requires plain { ArePlain (rings_of f.now) }
    requires count { OnRing f.now reserved.ring (λ plan. IsCount plan.take k reserved.range.count) }
    ensures of { IsPlacedOf f.now hand.new }
    ensures done { IfOk result (λ _. (hand.new.span ≡ open_span.Idle)
        × HasSettled (span_at Take reserved) (take k words.now) (placed_view hand.old) (placed_view hand.new)) }
    ensures early { IfErr result (λ why. (why ≡ fault.Pending) × (hand.new.span ≡ hand.old.span)
        × ((placed_view hand.new).shown ≡ (placed_view hand.old).shown)
        × IsEarly f.now (span_at Take reserved) (placed_view hand.old) (placed_view hand.new)) }
{
    match hand.try_settle_take(f, reserved, k, &mut Words { words }) {
        Ok(()) => Ok(()),
        Err(_fault) => Err(Fault::Pending),
    }
}

/// Takes all words of the open span, which needn't be kept for that. Errors: as `withdraw`.
#[inline(always)]
pub(crate) fn withdraw_all(f: &Rings, hand: &mut WordHand, reserved: Reserved) -> Result<(), Fault>
    requires of { IsPlacedOf f.now hand.old }
    requires open { hand.old.span ≡ open_span.Take reserved }
    requires plain { ArePlain (rings_of f.now) }
    ensures of { IsPlacedOf f.now hand.new }
    ensures done { IfOk result (λ _. (hand.new.span ≡ open_span.Idle)
        × HasSettled (span_at Take reserved) (placed_view hand.old).shown (placed_view hand.old)
        (placed_view hand.new)) }
    ensures early { IfErr result (λ why. (why ≡ fault.Pending) × (hand.new.span ≡ hand.old.span)
        × IsEarly f.now (span_at Take reserved) (placed_view hand.old) (placed_view hand.new)) }
{
    match hand.try_settle_all_taken(f, reserved) {
        Ok(()) => Ok(()),
        Err(_fault) => Err(Fault::Pending),
    }
}
