//! Looks at rings by a member.
ghost use Rattle.std.specs.Prelude.{◌≡◌, ◌<◌, ◌-◌, ◌^◌, Ok, length, min};
ghost use Rattle.fabric.specs.Hands.{rings_of};
ghost use Rattle.fabric.specs.InPlace.{IsPlacedOf, placed_view};
ghost use Rattle.capi.specs.Counts.{Looks, queued_or_room};
ghost use Rattle.capi.specs.MemberCalls.{LooksAt};
ghost use Rattle.capi.specs.RingCalls.{room_side};
ghost use Rattle.capi.specs.Spans.{tags};

use crate::rings::fault::Fault;
use crate::rings::member::{Member, Rings, WordHand};
use geom::Side;

/// A number as C gets it: at most the greatest of 32 bits.
pub fn clamped(number: u64) -> u32
    ensures { result ≡ min number (2 ^ 32 - 1) }
{
    number.min(u64::from(u32::MAX)) as u32
}

/// Of a ring that takes so many items and has so many: how many are queued, or how many more it takes.
pub fn queued_or_room(side: Side, capacity: u64, count: u64) -> u32
    ensures { result ≡ min (queued_or_room side capacity count) (2 ^ 32 - 1) }
{
    match side {
        Side::Take => clamped(count),
        Side::Put => clamped(capacity.saturating_sub(count)),
    }
}

/// How many words are queued on a ring, or how many more there is room for.
fn look_at(f: &Rings, hand: &mut WordHand, ring: usize, side: Side) -> u32
    requires of { IsPlacedOf f.now hand.old }
    requires ring { ring < length (rings_of f.now) }
    ensures of { IsPlacedOf f.now hand.new }
    ensures span { hand.new.span ≡ hand.old.span }
    ensures found { Looks tags f.now ring side (placed_view hand.old) (placed_view hand.new) (Ok result) }
{
    let count = hand.count(f, ring);
    queued_or_room(side, f.capacity(ring), count)
}

/// The side of a ring where words are queued, or where there is room.
pub fn side_of(queued: bool) -> Side
    ensures { result ≡ room_side queued }
{
    if queued { Side::Take } else { Side::Put }
}

/// How many words are queued, or how many more there is room for, with a span open or without. Errors: `Ring`.
pub fn look(member: &mut Member, ring: usize, side: Side) -> Result<u32, Fault>
    ensures { LooksAt ring side member.old member.new result }
{
    if ring >= member.port.rings() {
        return Err(Fault::Ring);
    }
    Ok(look_at(&member.port.fabric, &mut member.port.hand, ring, side))
}
