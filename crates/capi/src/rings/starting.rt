//! Starts of spans. Each is tried once.
ghost use Rattle.std.specs.Prelude.{◌≡◌, ◌<◌, ◌≤◌, ◌++◌, [], drop, length, take, IfOk, IfErr};
ghost use Rattle.geom.specs.declared.plan.Mode.TheVariants.{Hts};
ghost use Rattle.geom.specs.declared.plan.Side.TheVariants.{Put, Take};
ghost use Rattle.fabric.specs.Hands.{rings_of};
ghost use Rattle.fabric.specs.Held.{span_at};
ghost use Rattle.fabric.specs.InPlace.{IsPlacedOf, placed_view};
ghost use Rattle.fabric.specs.declared.hand.in_place.OpenSpan.TheVariants as open_span;
ghost use Rattle.capi.specs.Spans.{HasReserved, WasRefused, limit_of, room_of, start_fault};

use crate::rings::fault::Fault;
use crate::rings::member::{MAX_WORDS, Rings, WordHand};
use crate::rings::word64::Word64;
use fabric::{Reserved, StartFault};
use geom::How;

/// The fault for a refused start.
pub fn fault_of(why: StartFault) -> Fault
    ensures { result ≡ start_fault why }
{
    match why {
        StartFault::Busy(_) | StartFault::Contended(_) => Fault::Again,
        StartFault::NoRoom(_) => Fault::NoRoom,
        StartFault::Worn => Fault::Worn,
        StartFault::BadCount => Fault::Count,
    }
}

/// How many positions were free, or words were queued, when a start was refused.
pub(crate) fn room_in(why: StartFault) -> u64
    ensures { result ≡ room_of why }
{
    match why {
        StartFault::NoRoom(room) => room,
        _ => 0,
    }
}

/// Keeps the words of a take that stays open: its first `count` ones.
#[inline]
pub(crate) fn keep(shown: &mut [Word64; MAX_WORDS], words: &[Word64], count: usize)
    requires there { count ≤ length words.now }
    requires few { count ≤ MAX_WORDS }
    ensures { take count shown.new ≡ take count words.now }
{
    shown[..count].copy_from_slice(&words[..count]);
}

/// Reserves positions for a put.
#[inline(always)]
pub(crate) fn start_put(
    f: &Rings,
    hand: &mut WordHand,
    ring: usize,
    n: usize,
    how: How,
) -> Result<Reserved, StartFault>
    requires of { IsPlacedOf f.now hand.old }
    requires idle { hand.old.span ≡ open_span.Idle }
    requires ring { ring < length (rings_of f.now) }
    ensures of { IsPlacedOf f.now hand.new }
    ensures started { IfOk result (λ r. (hand.new.span ≡ open_span.Put r) × HasReserved f.now (limit_of Hts) how n ring
        Put (placed_view hand.old) (span_at Put r) r.range.left [] (placed_view hand.new)) }
    ensures refused { IfErr result (λ why. (hand.new.span ≡ open_span.Idle)
        × WasRefused f.now (limit_of Hts) how n ring Put (placed_view hand.old) why (placed_view hand.new)) }
{
    // an arm for each, so that the proof has each answer separately
    match hand.try_start_put(f, ring, n, how) {
        Ok(reserved) => Ok(reserved),
        Err(why) => Err(why),
    }
}

/// Reserves positions for a take, as many as there are places at most, and copies their words to the front.
#[inline(always)]
pub(crate) fn start_take(
    f: &Rings,
    hand: &mut WordHand,
    ring: usize,
    words: &mut [Word64],
    how: How,
) -> Result<Reserved, StartFault>
    requires of { IsPlacedOf f.now hand.old }
    requires idle { hand.old.span ≡ open_span.Idle }
    requires ring { ring < length (rings_of f.now) }
    ensures of { IsPlacedOf f.now hand.new }
    ensures started { IfOk result (λ r. (hand.new.span ≡ open_span.Take r)
        × HasReserved f.now (limit_of Hts) how (length words.old) ring Take (placed_view hand.old) (span_at Take r)
        r.range.left (placed_view hand.new).shown (placed_view hand.new)) }
    ensures copied { IfOk result (λ r. (length (placed_view hand.new).shown ≡ r.range.count)
        × (words.new ≡ (placed_view hand.new).shown ++ drop (length (placed_view hand.new).shown) words.old)) }
    ensures refused { IfErr result (λ why. (hand.new.span ≡ open_span.Idle) × (words.new ≡ words.old)
        × WasRefused f.now (limit_of Hts) how (length words.old) ring Take (placed_view hand.old) why
        (placed_view hand.new)) }
{
    // an arm for each, so that the proof has each answer separately
    match hand.try_start_take(f, ring, words.len(), how, words) {
        Ok(reserved) => Ok(reserved),
        Err(why) => Err(why),
    }
}
