//! A caller: two items that arrive out of order leave in order.
ghost use Rattle.std.specs.Prelude.{◌≡◌, IfOk, Some};

use reorder::Window;
use std::alloc::{AllocError, Global};

/// The items with the numbers 0 and 1, as they leave the window. Number 1 arrives first. Both numbers are free when
/// their items arrive, so neither `unwrap` can fail, which is proved.
pub fn in_turn(alloc: Global, zero: u32, one: u32) -> Result<(Option<u32>, Option<u32>), AllocError>
    ensures { IfOk result (λ given. given ≡ (Some zero, Some one)) }
{
    let mut window = Window::new(alloc, 2)?;
    window.insert(1, one).unwrap();
    window.insert(0, zero).unwrap();
    let first = window.pop();
    let second = window.pop();
    Ok((first, second))
}
