//! Rings that are closed: what is left on them.
ghost use Rattle.fabric.specs.Closed.{ring_count};
ghost use Rattle.std.specs.Prelude.{◌≡◌};

use crate::rings::word64::Word64;
use burst::Slot;
use fabric::Closed;

/// What is left on the rings of a set that was closed.
#[derive(Drop)]
pub struct Leftover {
    pub closed: Closed<Word64, Slot<Word64>>,
    pub rings: usize,
    pub ghost many: { rings ≡ ring_count closed },
}
