//! Walking to one segment of a row, which is then borrowed for writing.
//!
//! It takes one step per segment, as a loop would: a walk over at most 64 links is two walks over at most 32, and so on
//! down to single steps. After a loop or a recursion a proof wouldn't know, once the borrow has ended, that every other
//! segment is unchanged.
ghost use Rattle.std.specs.Prelude.{◌≡◌, ◌-◌, ◌<◌, ◌≤◌, length, drop};
ghost use Rattle.mbuf.specs.Chain.{part_of};
ghost use Rattle.mbuf.specs.Links.{row};
ghost use Rattle.std.specs.Borrow.{sem};

use crate::link::Link;
use crate::segment::Segment;

/// A walk over `$i` links by two walks over half of them.
macro_rules! halved {
    ($link:expr, $i:expr, $half:ident) => {{
        if $i == 1 {
            return $link.skip_1();
        }
        let half = $i / 2;
        $link.$half(half).as_mut().$half($i - half)
    }};
}

impl Link {
    ghost use Rattle.mbuf.specs.Lends.{LendsBehind, LendsSegment, LendsPartOfLink};

    /// The first segment, for writing.
    #[inline]
    fn segment_mut(&mut self) -> &mut Segment
        ensures* writes_back { sem 𝓛 (LendsSegment self.entry result) }
        ensures value { result.now ≡ self.old.0 }
    {
        &mut self.segment
    }

    /// The next link, for writing. Requires: there is one.
    #[inline]
    fn skip_1(&mut self) -> &mut Box<Link>
        requires { 1 < length (row self.old) }
        ensures* writes_back { sem 𝓛 (LendsBehind self.entry 0 result) }
        ensures value { row result.now.value ≡ drop 1 (row self.old) }
    {
        self.next.as_mut().unwrap()
    }

    /// The link `i` further on, from 1 to 2. Requires: there is one.
    fn within_2(&mut self, i: usize) -> &mut Box<Link>
        requires nonzero { 0 < i }
        requires at_most { i ≤ 2 }
        requires there { i < length (row self.old) }
        ensures* writes_back { sem 𝓛 (LendsBehind self.entry (i - 1) result) }
        ensures value { row result.now.value ≡ drop i (row self.old) }
    {
        if i == 1 {
            return self.skip_1();
        }
        self.skip_1().as_mut().skip_1()
    }

    /// The link `i` further on, from 1 to 4. Requires: there is one.
    fn within_4(&mut self, i: usize) -> &mut Box<Link>
        requires nonzero { 0 < i }
        requires at_most { i ≤ 4 }
        requires there { i < length (row self.old) }
        ensures* writes_back { sem 𝓛 (LendsBehind self.entry (i - 1) result) }
        ensures value { row result.now.value ≡ drop i (row self.old) }
    {
        halved!(self, i, within_2)
    }

    /// The link `i` further on, from 1 to 8. Requires: there is one.
    fn within_8(&mut self, i: usize) -> &mut Box<Link>
        requires nonzero { 0 < i }
        requires at_most { i ≤ 8 }
        requires there { i < length (row self.old) }
        ensures* writes_back { sem 𝓛 (LendsBehind self.entry (i - 1) result) }
        ensures value { row result.now.value ≡ drop i (row self.old) }
    {
        halved!(self, i, within_4)
    }

    /// The link `i` further on, from 1 to 16. Requires: there is one.
    fn within_16(&mut self, i: usize) -> &mut Box<Link>
        requires nonzero { 0 < i }
        requires at_most { i ≤ 16 }
        requires there { i < length (row self.old) }
        ensures* writes_back { sem 𝓛 (LendsBehind self.entry (i - 1) result) }
        ensures value { row result.now.value ≡ drop i (row self.old) }
    {
        halved!(self, i, within_8)
    }

    /// The link `i` further on, from 1 to 32. Requires: there is one.
    fn within_32(&mut self, i: usize) -> &mut Box<Link>
        requires nonzero { 0 < i }
        requires at_most { i ≤ 32 }
        requires there { i < length (row self.old) }
        ensures* writes_back { sem 𝓛 (LendsBehind self.entry (i - 1) result) }
        ensures value { row result.now.value ≡ drop i (row self.old) }
    {
        halved!(self, i, within_16)
    }

    /// The link `i` further on, from 1 to 64. Requires: there is one.
    fn within_64(&mut self, i: usize) -> &mut Box<Link>
        requires nonzero { 0 < i }
        requires at_most { i ≤ 64 }
        requires there { i < length (row self.old) }
        ensures* writes_back { sem 𝓛 (LendsBehind self.entry (i - 1) result) }
        ensures value { row result.now.value ≡ drop i (row self.old) }
    {
        halved!(self, i, within_32)
    }

    /// The bytes of segment `i`, for writing.
    #[inline]
    pub(crate) fn part_mut(&mut self, i: usize) -> &mut [u8]
        requires at_most { i ≤ 64 }
        requires there { i < length (row self.old) }
        ensures* writes_back { sem 𝓛 (LendsPartOfLink self.entry i result) }
        ensures value { result.now ≡ part_of (row self.old) i }
    {
        if i == 0 {
            return self.segment.bytes_mut();
        }
        self.within_64(i).as_mut().segment_mut().bytes_mut()
    }
}
