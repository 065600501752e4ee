//! A caller: a ring that has room for all items of a list takes every one of them.

ghost use Rattle.std.specs.Prelude.{◌≡◌, [], ◌<◌, length};

use geom::How;
use ringcore::OneRing;
use std::collections::VecDeque;

/// How many of these items are taken by a ring with room for one more item.
pub fn park(ring: &mut OneRing<u32>, items: &mut VecDeque<u32>) -> u64
    requires { length ring.old.items < ring.old.capacity }
    ensures { length items.old.items ≡ 1 → items.new.items ≡ [] }
{
    ring.put(How::Burst, items).count
}
