//! The bytes of one segment, borrowed to be read or written in place.
ghost use Rattle.std.specs.Prelude.{◌≡◌, ◌+◌, ◌<◌, ◌≤◌, length, take, drop};
ghost use Rattle.mbuf.specs.Chain.{bytes_of, part_of, place_of_part};

use crate::chain::Chain;

impl Chain {
    /// The bytes of segment `i`, counted from 0: those of the packet from the segment's start on. Requires: there is
    /// one.
    #[inline]
    pub fn part(&self, i: usize) -> &[u8]
        requires { i < length self.now }
        ensures segment { result.now ≡ part_of self.now i }
        ensures packet { result.now ≡ take (length result.now) (drop (place_of_part self.now i) (bytes_of self.now)) }
        ensures within { place_of_part self.now i + length result.now ≤ length (bytes_of self.now) }
    {
        self.first.part(i)
    }

    ghost use Rattle.std.specs.Borrow.{sem};
    ghost use Rattle.mbuf.specs.ChainLends.{LendsPart, IsWrittenBack, KeepsSegments};

    /// The bytes of segment `i`, counted from 0, for writing: those of the packet from the segment's start on. What is
    /// written appears in the packet at their place, and nothing else changes. Requires: there is one.
    #[inline]
    pub fn part_mut(&mut self, i: usize) -> &mut [u8]
        requires { i < length self.old }
        ensures* writes_back { sem 𝓛 (LendsPart self.entry i result) }
        ensures value { result.now ≡ part_of self.old i }
        ensures packet { result.now ≡ take (length result.now) (drop (place_of_part self.old i) (bytes_of self.old)) }
        ensures within { place_of_part self.old i + length result.now ≤ length (bytes_of self.old) }
        ensures written { IsWrittenBack self.old i (length result.now) }
        ensures kept { KeepsSegments self.old i }
    {
        self.first.part_mut(i)
    }
}
