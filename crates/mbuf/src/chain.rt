//! The packet: a chain of 1 to 64 segments, none twice. Operations work on its first or last segment (`ends`), or on
//! the bytes of the packet as a whole (`bytes`, `fill`). As written, these calls take no memory. No clause states this,
//! since a collection carries its allocator; a test makes the calls while every request is refused.
ghost use Rattle.std.specs.Prelude.{◌≡◌, ◌<◌, ◌≤◌, ◌^◌, ◌==◌, ◌∷◌, [], length, IfOk};
ghost use Rattle.mbuf.specs.Buffer.{made};
ghost use Rattle.mbuf.specs.Chain.{numbers_of, bytes_of, headroom_of, tailroom_of};

use crate::link::Link;
use crate::segment::Segment;
use arrayvec::ArrayVec;
use burst::Tagged;
use std::alloc::{AllocError, Global};
use std::marker::Model;

/// The maximum number of segments of a chain.
pub const MAX_SEGMENTS: u32 = 64;

/// A packet in boxed segments, two words wide, so it is cheap to pass by value. Contracts see it as the list of its
/// segments.
#[derive(Drop)]
pub struct Chain {
    pub(crate) first: Box<Link>,
    pub(crate) len: u32,
    pub(crate) segments: u32,
}

const _: () = prove!(size_of::<Chain>() <= 2 * size_of::<usize>());

impl Model for Chain {
    ghost use Rattle.std.specs.Prelude.{List};
    ghost use Rattle.mbuf.specs.Buffer.{Buffer};
    ghost use Rattle.mbuf.specs.Chain.{IsCounted};
    ghost use Rattle.mbuf.specs.Links.{row};

    ghost Value = { List Buffer };

    ghost view = { λ chain. row chain.first.value };

    ghost invariant = { λ chain. IsCounted (row chain.first.value) chain.len chain.segments };
}

impl Chain {
    /// A chain of one fresh segment, made for the first time.
    pub(crate) fn make(
        alloc: Global,
        number: u32,
        headroom: usize,
        room: usize,
    ) -> Result<Chain, AllocError>
        requires headroom { headroom ≤ 65536 }
        requires room { room ≤ 65536 }
        ensures { IfOk result (λ chain. chain ≡ made headroom room number ∷ []) }
    {
        let segment = Segment::make(alloc, number, headroom, room)?;
        Ok(Chain {
            first: Box::new(alloc, Link::alone(segment))?,
            len: 0,
            segments: 1,
        })
    }

    /// The length of the packet in bytes.
    #[inline]
    pub fn len(&self) -> usize
        ensures value { result ≡ length (bytes_of self.now) }
        ensures small { result < 2 ^ 32 }
    {
        self.len as usize
    }

    /// Whether the packet has no bytes.
    #[inline]
    pub fn is_empty(&self) -> bool
        ensures { result ≡ (length (bytes_of self.now) == 0) }
    {
        self.len == 0
    }

    /// The number of segments, from 1 to 64.
    #[inline]
    pub fn segments(&self) -> usize
        ensures value { result ≡ length self.now }
        ensures nonzero { 0 < result }
        ensures at_most { result ≤ 64 }
    {
        self.segments as usize
    }

    /// The free bytes before those of the first segment.
    #[inline]
    pub fn headroom(&self) -> usize
        ensures { result ≡ headroom_of self.now }
    {
        self.first.headroom()
    }

    /// The free bytes after those of the last segment.
    #[inline]
    pub fn tailroom(&self) -> usize
        ensures { result ≡ tailroom_of self.now }
    {
        self.first.tailroom()
    }
}

impl Tagged for Chain {
    ghost use Rattle.mbuf.specs.Chain.{numbers_of};

    ghost numbers = { numbers_of };

    fn tags(&self, out: &mut ArrayVec<u32, 64>) {
        self.first.tags(out);
    }

    #[inline]
    fn single_tag(&self) -> Option<u32> {
        if self.segments == 1 {
            Some(self.first.number())
        } else {
            None
        }
    }
}
