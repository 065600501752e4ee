//! The words on rings.
use arrayvec::ArrayVec;
use burst::{Tagged, Word};

/// A word of 64 bits. It carries no buffer.
#[repr(C)]
#[derive(Drop, Clone, Copy, Debug)]
pub struct Word64 {
    pub bits: u64,
}

impl Tagged for Word64 {
    ghost use Rattle.std.specs.Prelude.{[]};

    ghost numbers = { λ _. [] };

    #[inline]
    fn tags(&self, _out: &mut ArrayVec<u32, 64>) {}

    #[inline]
    fn single_tag(&self) -> Option<u32> {
        None
    }
}

impl Word for Word64 {
    #[inline]
    fn blank() -> Word64 {
        Word64 { bits: 0 }
    }
}
