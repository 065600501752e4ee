//! Peeks: spans of head/tail-sync sides that stay open between two calls.
ghost use Rattle.std.specs.Prelude.{◌≡◌, ◌<◌, List, length};
ghost use Rattle.fabric.specs.Hands.{rings_of};
ghost use Rattle.fabric.specs.InPlace.{IsPlacedOf, placed_view};
ghost use Rattle.fabric.specs.declared.hand.in_place.OpenSpan.TheVariants as open_span;
ghost use Rattle.capi.specs.Calls.{PeeksPut, PeeksTake};
ghost use Rattle.capi.specs.Members.{AreShown};
ghost use Rattle.capi.specs.declared.rings.word64.Word64.{Word64 as Words};

use crate::rings::fault::Fault;
use crate::rings::member::{MAX_WORDS, Rings, WordHand};
use crate::rings::starting::{fault_of, keep, room_in, start_put, start_take};
use crate::rings::word64::Word64;
use geom::How;

/// Reserves positions of a put side. It also returns how many more were free.
pub(crate) fn peek_put(
    f: &Rings,
    hand: &mut WordHand,
    ring: usize,
    n: usize,
    how: How,
) -> (u64, Result<u32, Fault>)
    requires of { IsPlacedOf f.now hand.old }
    requires idle { hand.old.span ≡ open_span.Idle }
    requires ring { ring < length (rings_of f.now) }
    ensures of { IsPlacedOf f.now hand.new }
    ensures shows { (shown : List Words) → AreShown hand.new shown }
    ensures peek { PeeksPut f.now how ring (placed_view hand.old) n result.0 (placed_view hand.new) result.1 }
{
    match start_put(f, hand, ring, n, how) {
        Ok(reserved) => (reserved.left(), Ok(reserved.count() as u32)),
        Err(why) => (room_in(why), Err(fault_of(why))),
    }
}

/// Reserves words of a take side, and shows them at the front of the array. It also returns how many more were queued.
pub(crate) fn peek_take(
    f: &Rings,
    hand: &mut WordHand,
    ring: usize,
    words: &mut [Word64],
    how: How,
    shown: &mut [Word64; MAX_WORDS],
) -> (u64, Result<u32, Fault>)
    requires of { IsPlacedOf f.now hand.old }
    requires idle { hand.old.span ≡ open_span.Idle }
    requires ring { ring < length (rings_of f.now) }
    ensures of { IsPlacedOf f.now hand.new }
    ensures shows { AreShown hand.new shown.new }
    ensures peek { PeeksTake f.now how ring (placed_view hand.old) words.old words.new result.0 (placed_view hand.new)
        result.1 }
{
    match start_take(f, hand, ring, words, how) {
        Ok(reserved) => {
            let count = reserved.count();
            keep(shown, words, count);
            (reserved.left(), Ok(count as u32))
        }
        Err(why) => (room_in(why), Err(fault_of(why))),
    }
}
