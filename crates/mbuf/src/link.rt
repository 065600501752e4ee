//! Segments in a row, each boxed with the link to the next one, as an mbuf holds its `next`. Operations on the last
//! segment are passed on from link to link.
ghost use Rattle.std.specs.Prelude.{◌≡◌, ◌+◌, ◌-◌, ◌<◌, ◌≤◌, ◌++◌, ◌↔◌, [], List, length, drop};
ghost use Rattle.std.specs.Prelude.{IsErrOf, OnOk, OnErr};
ghost use Rattle.mbuf.specs.Buffer.{prepended, appended, cut_front, cut_back};
ghost use Rattle.mbuf.specs.Chain.{numbers_of, bytes_of, fresh_of, HasSameSegments, without_last, headroom_of};
ghost use Rattle.mbuf.specs.Chain.{tailroom_of, first_bytes, last_bytes, at_segment, at_last};
ghost use Rattle.mbuf.specs.Links.{row, behind};
ghost use Rattle.arrayvec.specs.ArrayVec.{array_vec_len};

use crate::fault::ChainFault;
use crate::segment::Segment;
use arrayvec::ArrayVec;
use std::marker::Model;

/// A segment, and those after it.
#[derive(Drop)]
pub struct Link {
    pub(crate) segment: Segment,
    pub(crate) next: Option<Box<Link>>,
}

impl Model for Link {
    ghost use Rattle.std.specs.Prelude.{List, length};
    ghost use Rattle.mbuf.specs.Buffer.{Buffer};

    ghost Value = { Buffer × List Buffer };

    ghost use Rattle.mbuf.specs.Links.{segments_of};

    ghost view = { segments_of };

    ghost size = { λ link. length link.1 };

    ghost use Rattle.std.proofs.Common.{arith, length-append};

    ghost size_decreases = { λ a h. Prim.grind (arith, length-append) };
}

impl Link {
    /// The last link.
    pub fn alone(segment: Segment) -> Link
        ensures { result ≡ (segment, []) }
    {
        Link {
            segment,
            next: None,
        }
    }

    /// The number of the first segment.
    #[inline]
    pub fn number(&self) -> u32
        ensures { result ≡ self.now.0.number }
    {
        self.segment.number()
    }

    /// The headroom of the first segment.
    #[inline]
    pub fn headroom(&self) -> usize
        ensures { result ≡ headroom_of (row self.now) }
    {
        self.segment.headroom()
    }

    /// The number of bytes in the first segment.
    #[inline]
    pub fn first_len(&self) -> usize
        ensures { result ≡ length (first_bytes (row self.now)) }
    {
        self.segment.len()
    }

    /// The tailroom of the last segment.
    pub fn tailroom(&self) -> usize
        ensures { result ≡ tailroom_of (row self.now) }
    {
        match &self.next {
            None => self.segment.tailroom(),
            Some(next) => next.tailroom(),
        }
    }

    /// Puts `bytes` before those of the first segment.
    #[inline]
    pub fn prepend(&mut self, bytes: &[u8])
        requires { length bytes.now ≤ headroom_of (row self.old) }
        ensures done { row self.new ≡ at_segment 0 (prepended bytes.now) (row self.old) }
        ensures packet { bytes_of (row self.new) ≡ bytes.now ++ bytes_of (row self.old) }
        ensures kept { HasSameSegments (row self.new) (row self.old) }
    {
        self.segment.prepend(bytes);
    }

    /// Appends `bytes` to the last segment. The recursion compiles to a loop, so the one segment of most packets is
    /// reached without a call.
    #[inline]
    pub fn append(&mut self, bytes: &[u8]) -> Result<(), ChainFault>
        ensures done { OnOk result (row self.new ≡ at_last (appended bytes.now) (row self.old)) }
        ensures packet { OnOk result (bytes_of (row self.new) ≡ bytes_of (row self.old) ++ bytes.now) }
        ensures kept { HasSameSegments (row self.new) (row self.old) }
        ensures refused { IsErrOf result ChainFault.NoTailroom ↔ (tailroom_of (row self.old) < length bytes.now) }
        ensures unchanged { OnErr result ((result ≡ Err ChainFault.NoTailroom) × (self.new ≡ self.old)) }
    {
        match &mut self.next {
            None => self.segment.append(bytes),
            Some(next) => next.append(bytes),
        }
    }

    /// Cuts `n` bytes off the front of the first segment.
    #[inline]
    pub fn cut_front(&mut self, n: usize)
        requires { n ≤ length (first_bytes (row self.old)) }
        ensures done { row self.new ≡ at_segment 0 (cut_front n) (row self.old) }
        ensures packet { bytes_of (row self.new) ≡ drop n (bytes_of (row self.old)) }
        ensures kept { HasSameSegments (row self.new) (row self.old) }
    {
        self.segment.cut_front(n);
    }

    /// Cuts `n` bytes off the end of the last segment.
    #[inline]
    #[tactic(auto, using(crate::proofs::Copies::take_past))]
    pub fn cut_back(&mut self, n: usize) -> Result<(), ChainFault>
        ensures done { OnOk result (row self.new ≡ at_last (cut_back n) (row self.old)) }
        ensures within { OnOk result (n ≤ length (bytes_of (row self.old))) }
        ensures packet { OnOk result (bytes_of (row self.new) ≡ without_last n (row self.old)) }
        ensures kept { HasSameSegments (row self.new) (row self.old) }
        ensures refused { IsErrOf result ChainFault.TooShort ↔ (length (last_bytes (row self.old)) < n) }
        ensures unchanged { OnErr result ((result ≡ Err ChainFault.TooShort) × (self.new ≡ self.old)) }
    {
        match &mut self.next {
            None => self.segment.cut_back(n),
            Some(next) => next.cut_back(n),
        }
    }

    /// Links `tail` after the last segment.
    pub fn join(&mut self, tail: Box<Link>)
        ensures { row self.new ≡ row self.old ++ row tail.value }
    {
        match &mut self.next {
            None => self.next = Some(tail),
            Some(next) => next.join(tail),
        }
    }

    /// Takes off the segments after the first.
    pub fn take_next(&mut self) -> Option<Box<Link>>
        ensures rest { row self.old ≡ row self.new ++ behind result }
        ensures first { length (row self.new) ≡ 1 }
    {
        self.next.take()
    }

    /// Makes each segment fresh.
    pub fn reset(&mut self)
        ensures { row self.new ≡ fresh_of (row self.old) }
    {
        self.segment.reset();
        if let Some(next) = &mut self.next {
            next.reset();
        }
    }

    /// Appends the numbers of the segments to those already in `out`.
    pub fn tags(&self, out: &mut ArrayVec<u32, 64>)
        requires { array_vec_len out.old + length (row self.now) ≤ 64 }
        ensures { out.new.items ≡ out.old.items ++ numbers_of (row self.now) }
    {
        out.push(self.segment.number());
        if let Some(next) = &self.next {
            next.tags(out);
        }
    }
}
