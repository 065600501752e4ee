//! A caller, using the contracts alone.
ghost use Rattle.std.specs.Prelude.{◌≡◌, [], ◌∷◌};

use crate::burst::Burst;

/// Pushes two numbers, then moves them to another list in reverse order.
pub(crate) fn last_first(first: u32, second: u32) -> Burst<u32, 4>
    ensures { result ≡ second ∷ first ∷ [] }
{
    let mut items = Burst::<u32, 4>::new();
    items.push(first);
    items.push(second);
    let mut turned = Burst::<u32, 4>::new();
    items.move_tail_reversed(0, &mut turned);
    turned
}
