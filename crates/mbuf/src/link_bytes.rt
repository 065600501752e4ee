//! Reading bytes from a row of segments and writing them to it, from link to link.
ghost use Rattle.std.specs.Prelude.{◌≡◌, ◌+◌, ◌-◌, ◌<◌, ◌≤◌, ◌^◌, length, take, drop, replicate, slice_index};
ghost use Rattle.std.specs.Prelude.{slice_set};
ghost use Rattle.mbuf.specs.Buffer.{room_of, fresh, appended, overwritten};
ghost use Rattle.mbuf.specs.Chain.{bytes_of, HasSameSegments, space_of, part_of, shape_of, filled};
ghost use Rattle.mbuf.specs.Links.{row};

use crate::link::Link;
use crate::segment::Segment;

impl Link {
    /// Byte `i` of the packet.
    pub fn byte(&self, i: usize) -> u8
        requires { i < length (bytes_of (row self.now)) }
        ensures { result ≡ slice_index (bytes_of (row self.now)) i }
    {
        let here = self.segment.len();
        if i < here {
            return self.segment.byte(i);
        }
        match &self.next {
            None => unreachable!(),
            Some(next) => next.byte(i - here),
        }
    }

    /// Replaces byte `i` of the packet.
    pub fn set(&mut self, i: usize, v: u8)
        requires { i < length (bytes_of (row self.old)) }
        ensures bytes { bytes_of (row self.new) ≡ slice_set (bytes_of (row self.old)) i v }
        ensures shape { shape_of (row self.new) ≡ shape_of (row self.old) }
        ensures kept { HasSameSegments (row self.new) (row self.old) }
    {
        let here = self.segment.len();
        if i < here {
            self.segment.set(i, v);
            return;
        }
        match &mut self.next {
            None => unreachable!(),
            Some(next) => next.set(i - here, v),
        }
    }

    /// Copies bytes of the packet to `out`, from byte `at` on.
    pub fn copy_out(&self, at: usize, out: &mut [u8])
        requires { at + length out.old ≤ length (bytes_of (row self.now)) }
        ensures { out.new ≡ take (length out.old) (drop at (bytes_of (row self.now))) }
    {
        let here = self.segment.bytes();
        let start = at.min(here.len());
        let n = out.len().min(here.len() - start);
        let (front, rest) = out.split_at_mut(n);
        front.copy_from_slice(&here[start..start + n]);
        if rest.is_empty() {
            return;
        }
        if let Some(next) = &self.next {
            next.copy_out(at - start, rest);
        }
    }

    /// Writes `bytes` over those of the packet from its byte `at` on.
    pub fn write(&mut self, at: usize, bytes: &[u8])
        requires { at + length bytes.now ≤ length (bytes_of (row self.old)) }
        ensures packet { bytes_of (row self.new) ≡ overwritten at bytes.now (bytes_of (row self.old)) }
        ensures shape { shape_of (row self.new) ≡ shape_of (row self.old) }
        ensures kept { HasSameSegments (row self.new) (row self.old) }
    {
        let here = self.segment.len();
        let start = at.min(here);
        let n = bytes.len().min(here - start);
        let (front, rest) = bytes.split_at(n);
        self.segment.write(start, front);
        if rest.is_empty() {
            return;
        }
        match &mut self.next {
            None => unreachable!(),
            Some(next) => next.write(at - start, rest),
        }
    }

    /// Makes `segment` hold `n` bytes of the packet, from its byte `at` on.
    fn copy_into(&self, at: usize, n: usize, segment: &mut Segment)
        requires there { at + n ≤ length (bytes_of (row self.now)) }
        requires room { n ≤ room_of segment.old }
        ensures { segment.new ≡ appended (take n (drop at (bytes_of (row self.now)))) (fresh segment.old) }
    {
        segment.resize(n);
        self.copy_out(at, segment.bytes_mut());
    }

    /// How many bytes the segments can take when fresh.
    pub fn space(&self) -> usize
        requires { space_of (row self.now) < 2 ^ 63 }
        ensures { result ≡ space_of (row self.now) }
    {
        let here = self.segment.room();
        match &self.next {
            None => here,
            Some(next) => here + next.space(),
        }
    }

    /// Makes the packet `n` zero bytes long, from the first segment on.
    #[tactic(auto, using(crate::proofs::Copies::filled_zeros))]
    pub fn stretch(&mut self, n: usize)
        requires { n ≤ space_of (row self.old) }
        ensures done { row self.new ≡ filled (replicate n 0) (row self.old) }
        ensures packet { bytes_of (row self.new) ≡ replicate n 0 }
        ensures kept { HasSameSegments (row self.new) (row self.old) }
    {
        let here = n.min(self.segment.room());
        self.segment.stretch(here);
        match &mut self.next {
            None => {}
            Some(next) => next.stretch(n - here),
        }
    }

    /// Makes the packet `n` bytes long, from the first segment on. The values of its bytes are not specified.
    #[tactic(auto, using(crate::proofs::Copies::filled_zeros))]
    pub fn resize(&mut self, n: usize)
        requires { n ≤ space_of (row self.old) }
        ensures len { length (bytes_of (row self.new)) ≡ n }
        ensures shape { shape_of (row self.new) ≡ filled (replicate n 0) (row self.old) }
        ensures kept { HasSameSegments (row self.new) (row self.old) }
    {
        let here = n.min(self.segment.room());
        self.segment.resize(here);
        match &mut self.next {
            None => {}
            Some(next) => next.resize(n - here),
        }
    }

    /// Replaces the packet by these bytes, from the first segment on.
    #[tactic(auto, using(crate::proofs::Copies::filled_front))]
    pub fn fill(&mut self, bytes: &[u8])
        requires { length bytes.now ≤ space_of (row self.old) }
        ensures done { row self.new ≡ filled bytes.now (row self.old) }
        ensures packet { bytes_of (row self.new) ≡ bytes.now }
        ensures kept { HasSameSegments (row self.new) (row self.old) }
    {
        let here = bytes.len().min(self.segment.room());
        let (front, rest) = bytes.split_at(here);
        self.segment.fill(front);
        match &mut self.next {
            None => {}
            Some(next) => next.fill(rest),
        }
    }

    /// Fills the segments from the first on with `n` bytes of `source`, from its byte `at` on.
    #[tactic(auto, using(crate::proofs::Copies::filled_part))]
    pub fn fill_from(&mut self, source: &Link, at: usize, n: usize)
        requires there { at + n ≤ length (bytes_of (row source.now)) }
        requires room { n ≤ space_of (row self.old) }
        requires fits { length (bytes_of (row source.now)) < 2 ^ 63 }
        ensures done { row self.new ≡ filled (take n (drop at (bytes_of (row source.now)))) (row self.old) }
        ensures kept { HasSameSegments (row self.new) (row self.old) }
    {
        let here = n.min(self.segment.room());
        source.copy_into(at, here, &mut self.segment);
        match &mut self.next {
            None => {}
            Some(next) => next.fill_from(source, at + here, n - here),
        }
    }

    /// The bytes of segment `i`.
    #[inline]
    pub fn part(&self, i: usize) -> &[u8]
        requires { i < length (row self.now) }
        ensures { result.now ≡ part_of (row self.now) i }
    {
        if i == 0 {
            return self.segment.bytes();
        }
        match &self.next {
            None => unreachable!(),
            Some(next) => next.part(i - 1),
        }
    }
}
