//! A caller: what comes out of a ring at the end, derived from contracts alone.
ghost use Rattle.std.specs.Prelude.{◌≡◌, ◌<◌, [], length, IfSome, None};
ghost use Rattle.std.specs.List.{flat_map};
ghost use Rattle.burst.specs.Numbers.{AreDistinct};
ghost use Rattle.fabric_laws.specs.Rule.{all_parts};
ghost use Rattle.fabric.specs.Closed.{left, ring_count};
ghost use Rattle.fabric.specs.Hands.{IsHandOf, rings_of, view};

use burst::{Burst, Tagged};
use fabric::{Closed, Fabric, Hand};
use geom::How;
use std::alloc::Global;

/// Splits the only hand of a fabric in two, the first of which sends a list on ring 0; joins them and ends the fabric.
/// `Closed::next` then returns exactly these items, in the order in which they were sent, and each number once. `None`
/// if the ring is too small, an item isn't the hand's to send, or there is no memory.
pub fn send_and_close<T: Tagged, const N: usize>(
    alloc: Global,
    fabric: Fabric<T, N>,
    hand: Hand<T>,
    list: &mut Burst<T, N>,
) -> Option<Closed<T>>
    requires hand { IsHandOf fabric hand }
    requires ring { 0 < length (rings_of fabric) }
    requires only { (view hand).parts ≡ all_parts }
    requires fresh { (view hand).party.settled ≡ [] }
    ensures rings { IfSome result (λ c. ring_count c ≡ length (rings_of fabric)) }
    ensures in_order { IfSome result (λ c. left c 0 ≡ list.old) }
    ensures once { IfSome result (λ c. AreDistinct (flat_map T.numbers (left c 0))) }
{
    let Ok((first, second)) = hand.split(alloc, &fabric) else {
        return None;
    };
    let Ok(span) = fabric.try_start_put(first, 0, list.len(), How::Bulk) else {
        return None;
    };
    let Ok(sent) = span.try_settle_from(list) else {
        return None;
    };
    let whole = sent.join(&fabric, second);
    Some(fabric.close(whole))
}
