//! Finishing a span that a hand has open: after a call that returned `Pending`, or of a peek.
ghost use Rattle.std.specs.Prelude.{◌≡◌, ◌≤◌, IfNone, IfSome, List, length, take};
ghost use Rattle.geom.specs.declared.plan.Side.TheVariants as side;
ghost use Rattle.geom.specs.declared.plan.Side.TheVariants.{Put, Take};
ghost use Rattle.fabric.specs.Hands.{rings_of};
ghost use Rattle.fabric.specs.Held.{IsHtsOf, span_at};
ghost use Rattle.fabric.specs.InPlace.{IsPlacedOf, placed_view};
ghost use Rattle.fabric.specs.declared.hand.in_place.OpenSpan.TheVariants as open_span;
ghost use Rattle.capi.specs.Finishes.{DoesNotFit, FinishesPut, FinishesTake, Settles};
ghost use Rattle.capi.specs.Members.{ArePlain, AreShown};
ghost use Rattle.capi.specs.declared.rings.word64.Word64.{Word64 as Words};

use crate::rings::fault::Fault;
use crate::rings::member::{MAX_WORDS, Rings, WordHand};
use crate::rings::settling::{publish, withdraw, withdraw_all};
use crate::rings::word64::Word64;
use fabric::Reserved;
use geom::{Mode, Side};

/// How many of a span's positions are settled for a count of `n`: on a multi side all, and `n` is at least as many; on
/// an HTS side `n`, and the span has at least as many. `None` if `n` doesn't fit.
fn settled_count(mode: Mode, n: usize, count: usize) -> Option<usize>
    ensures some { IfSome result (λ k. Settles mode n count k × (k ≤ n) × (k ≤ count)) }
    ensures none { IfNone result (DoesNotFit mode n count) }
{
    match mode {
        Mode::Multi => { if n < count { None } else { Some(count) } }
        Mode::Hts => { if n > count { None } else { Some(n) } }
    }
}

/// Finishes the open put with these words.
pub(crate) fn finish_put(
    f: &Rings,
    hand: &mut WordHand,
    reserved: Reserved,
    words: &[Word64],
) -> Result<u32, Fault>
    requires of { IsPlacedOf f.now hand.old }
    requires open { hand.old.span ≡ open_span.Put reserved }
    requires plain { ArePlain (rings_of f.now) }
    ensures of { IsPlacedOf f.now hand.new }
    ensures shows { (shown : List Words) → AreShown hand.new shown }
    ensures finish { FinishesPut f.now (span_at Put reserved) (placed_view hand.old) words.now
        (placed_view hand.new) result }
{
    let mode = f.mode(reserved.ring(), Side::Put);
    let Some(k) = settled_count(mode, words.len(), reserved.count()) else {
        return Err(Fault::Count);
    };
    match publish(f, hand, reserved, &words[..k]) {
        Ok(()) => Ok(k as u32),
        Err(why) => Err(why),
    }
}

/// Finishes the open take: the first `n` of the words that it showed.
pub(crate) fn finish_take(
    f: &Rings,
    hand: &mut WordHand,
    reserved: Reserved,
    n: usize,
    shown: &[Word64; MAX_WORDS],
) -> Result<u32, Fault>
    requires of { IsPlacedOf f.now hand.old }
    requires open { hand.old.span ≡ open_span.Take reserved }
    requires plain { ArePlain (rings_of f.now) }
    requires shows { IsHtsOf (placed_view hand.old).plans reserved.ring side.Take
        → (reserved.range.count ≤ MAX_WORDS) × (take reserved.range.count shown.now ≡ (placed_view hand.old).shown) }
    ensures of { IsPlacedOf f.now hand.new }
    ensures shows { AreShown hand.new shown.now }
    ensures finish { FinishesTake f.now (span_at Take reserved) (placed_view hand.old) n (placed_view hand.new) result }
{
    let mode = f.mode(reserved.ring(), Side::Take);
    let count = reserved.count();
    let Some(k) = settled_count(mode, n, count) else {
        return Err(Fault::Count);
    };
    match mode {
        Mode::Multi => match withdraw_all(f, hand, reserved) {
            Ok(()) => Ok(k as u32),
            Err(why) => Err(why),
        },
        Mode::Hts => match withdraw(f, hand, reserved, k, &shown[..count]) {
            Ok(()) => Ok(k as u32),
            Err(why) => Err(why),
        },
    }
}
