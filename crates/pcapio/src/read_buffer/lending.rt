//! Buffered bytes, lent in place.
ghost use Rattle.std.specs.Prelude.{◌≡◌, ◌+◌, ◌≤◌, length, take, drop};
ghost use Rattle.std.specs.Borrow.{sem};

use crate::read_buffer::ReadBuffer;

impl ReadBuffer {
    ghost use Rattle.pcapio.specs.ReadBuffer.{items};
    ghost use Rattle.pcapio.specs.BufferLends.{LendsFront};

    /// Consumes the first `before` bytes and the next `count`, and lends the latter for writing.
    pub(crate) fn lend(&mut self, before: usize, count: usize) -> &mut [u8]
        requires { before + count ≤ length (items self.old) }
        ensures* writes_back { sem 𝓛 (LendsFront self.entry before count result) }
        ensures value { result.now ≡ take count (drop before (items self.old)) }
    {
        let from = self.start + before;
        let to = from + count;
        self.start = to;
        self.buffer.slice_mut(from..to)
    }
}
