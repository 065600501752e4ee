//! Moves of items between lists, in the order that the cache keeps.
ghost use Rattle.std.specs.Prelude.{◌≡◌, ◌+◌, ◌-◌, ◌≤◌, ◌++◌, [], length, take, drop, reverse};

use burst::{Burst, Tagged};

/// Moves the items after the first `k` of a list into an empty one, in order.
pub(crate) fn part<T: Tagged, const N: usize>(
    from: &mut Burst<T, N>,
    k: usize,
    to: &mut Burst<T, N>,
)
    requires fits { k ≤ length from.old }
    requires at_most { length from.old - k ≤ N }
    requires empty { to.old ≡ [] }
    ensures left { from.new ≡ take k from.old }
    ensures moved { to.new ≡ drop k from.old }
{
    from.move_tail_reversed(k, to);
    to.reverse();
}

/// Moves all items of a list to the end of another, in order. Requires: there is room for them. One item is moved
/// without a loop.
#[inline]
pub(crate) fn push_all<T: Tagged, const N: usize>(to: &mut Burst<T, N>, from: &mut Burst<T, N>)
    requires room { length to.old + length from.old ≤ N }
    ensures left { from.new ≡ [] }
    ensures moved { to.new ≡ to.old ++ from.old }
{
    if from.len() != 1 {
        to.append(from);
        return;
    }
    if let Some(item) = from.pop() {
        to.push(item);
    }
}

/// Moves the first `k` items of a list to the end of another, in order. Requires: there is room for them.
pub(crate) fn serve<T: Tagged, const N: usize>(
    from: &mut Burst<T, N>,
    k: usize,
    to: &mut Burst<T, N>,
)
    requires fits { k ≤ length from.old }
    requires room { length to.old + k ≤ N }
    ensures left { from.new ≡ drop k from.old }
    ensures moved { to.new ≡ to.old ++ take k from.old }
{
    from.reverse();
    from.move_tail_reversed(from.len() - k, to);
    from.reverse();
}
