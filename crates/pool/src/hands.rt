//! The hand in a cache, and the buffer that an item carries.
ghost use Rattle.std.specs.Prelude.{◌≡◌, ◌==◌, length, true, Some};
ghost use Rattle.std.specs.Option.{is_some};
ghost use Rattle.ringcore_laws.specs.Sound.{occurrences};
ghost use Rattle.fabric.specs.Owned.{one_if};

use burst::Tagged;
use fabric::{CacheHand, Stored};

/// Takes the hand out of a cache, for a call on a ring. Requires: it is there.
pub(crate) fn take_hand<T: Tagged, S: Stored<T>>(
    hand: &mut Option<CacheHand<T, S>>,
) -> CacheHand<T, S>
    requires here { is_some hand.old ≡ true }
    ensures { hand.old ≡ Some result }
{
    match hand.take() {
        Some(cache_hand) => cache_hand,
        None => unreachable!(),
    }
}

/// Whether an item that carries one buffer carries this one.
pub(crate) fn carries<T: Tagged>(item: &T, b: u32) -> bool
    requires single { (length (T.numbers item.now) == 1) ≡ true }
    ensures { occurrences b (T.numbers item.now) ≡ one_if result }
{
    match item.single_tag() {
        Some(number) => number == b,
        None => false,
    }
}
