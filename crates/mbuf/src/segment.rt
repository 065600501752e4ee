//! One numbered buffer with the part of a packet that is in it, and free bytes before and after it: a caller can add
//! and remove headers in place. It is the only code that moves bytes.
ghost use Rattle.std.specs.Prelude.{◌≡◌, ◌+◌, ◌-◌, ◌<◌, ◌≤◌, ◌^◌, ◌↔◌, length, replicate, slice_index, IfOk};
ghost use Rattle.std.specs.Prelude.{IsErrOf, OnOk, OnErr};
ghost use Rattle.mbuf.specs.Buffer.{room_of, fresh, made, prepended, appended, cut_front, cut_back};
ghost use Rattle.mbuf.specs.Buffer.{with_byte, written, blanked};

use crate::fault::ChainFault;
use std::alloc::{AllocError, Global};
use std::marker::Model;

/// A buffer, and where in it the bytes of the packet are.
#[derive(Drop)]
pub struct Segment {
    number: u32,
    reserve: usize,
    start: usize,
    len: usize,
    store: Vec<u8>,
}

impl Model for Segment {
    ghost use Rattle.std.specs.Prelude.{◌≤◌, ◌+◌, ◌-◌, ◌*◌, take, drop, vec_len};
    ghost use Rattle.mbuf.specs.Buffer.{Buffer};

    ghost Value = { Buffer };

    ghost view = { λ s. record {
      number = s.number;
      reserve = s.reserve;
      headroom = s.start;
      bytes = take s.len (drop s.start s.store.items);
      tailroom = vec_len s.store - (s.start + s.len);
    } };

    ghost invariant = { λ s. (s.start + s.len ≤ vec_len s.store) × (s.reserve ≤ vec_len s.store) };
}

impl Segment {
    /// A fresh segment.
    pub fn make(
        alloc: Global,
        number: u32,
        headroom: usize,
        room: usize,
    ) -> Result<Segment, AllocError>
        requires small { headroom + room < 2 ^ 63 }
        ensures { IfOk result (λ s. s ≡ made headroom room number) }
    {
        Ok(Segment {
            number,
            reserve: headroom,
            start: headroom,
            len: 0,
            store: vec![in alloc; 0; headroom + room]?,
        })
    }

    #[inline]
    pub fn number(&self) -> u32
        ensures { result ≡ self.now.number }
    {
        self.number
    }

    #[inline]
    pub fn len(&self) -> usize
        ensures { result ≡ length self.now.bytes }
    {
        self.len
    }

    #[inline]
    pub fn headroom(&self) -> usize
        ensures { result ≡ self.now.headroom }
    {
        self.start
    }

    #[inline]
    pub fn tailroom(&self) -> usize
        ensures { result ≡ self.now.tailroom }
    {
        self.store.len() - (self.start + self.len)
    }

    /// The tailroom that the segment has when fresh.
    #[inline]
    pub fn room(&self) -> usize
        ensures { result ≡ room_of self.now }
    {
        self.store.len() - self.reserve
    }

    /// Appends `bytes` if there is tailroom for them.
    #[inline]
    pub fn append(&mut self, bytes: &[u8]) -> Result<(), ChainFault>
        ensures done { OnOk result (self.new ≡ appended bytes.now self.old) }
        ensures refused { IsErrOf result ChainFault.NoTailroom ↔ (self.old.tailroom < length bytes.now) }
        ensures unchanged { OnErr result ((result ≡ Err ChainFault.NoTailroom) × (self.new ≡ self.old)) }
    {
        let added = bytes.len();
        if added > self.tailroom() {
            return Err(ChainFault::NoTailroom);
        }
        let end = self.start + self.len;
        self.store
            .slice_mut(end..end + added)
            .copy_from_slice(bytes);
        self.len += added;
        Ok(())
    }

    #[inline]
    pub fn prepend(&mut self, bytes: &[u8])
        requires { length bytes.now ≤ self.old.headroom }
        ensures { self.new ≡ prepended bytes.now self.old }
    {
        let end = self.start;
        let added = bytes.len();
        let start = end - added;
        self.store.slice_mut(start..end).copy_from_slice(bytes);
        self.start = start;
        self.len += added;
    }

    #[inline]
    pub fn cut_front(&mut self, n: usize)
        requires { n ≤ length self.old.bytes }
        ensures { self.new ≡ cut_front n self.old }
    {
        self.start += n;
        self.len -= n;
    }

    /// Cuts `n` bytes off the end if it has that many.
    #[inline]
    pub fn cut_back(&mut self, n: usize) -> Result<(), ChainFault>
        ensures done { OnOk result (self.new ≡ cut_back n self.old) }
        ensures refused { IsErrOf result ChainFault.TooShort ↔ (length self.old.bytes < n) }
        ensures unchanged { OnErr result ((result ≡ Err ChainFault.TooShort) × (self.new ≡ self.old)) }
    {
        if n > self.len {
            return Err(ChainFault::TooShort);
        }
        self.len -= n;
        Ok(())
    }

    #[inline]
    pub fn reset(&mut self)
        ensures { self.new ≡ fresh self.old }
    {
        self.start = self.reserve;
        self.len = 0;
    }

    /// Makes the segment `n` bytes long, from where its bytes begin when it is fresh. Their values are not specified.
    #[inline]
    pub fn resize(&mut self, n: usize)
        requires { n ≤ room_of self.old }
        ensures shape { blanked self.new ≡ appended (replicate n 0) (fresh self.old) }
        ensures len { length self.new.bytes ≡ n }
    {
        self.start = self.reserve;
        self.len = n;
    }

    #[inline]
    pub fn byte(&self, i: usize) -> u8
        requires { i < length self.now.bytes }
        ensures { result ≡ slice_index self.now.bytes i }
    {
        self.store[self.start + i]
    }

    #[inline]
    pub fn set(&mut self, i: usize, v: u8)
        requires { i < length self.old.bytes }
        ensures { self.new ≡ with_byte i v self.old }
    {
        let at = self.start + i;
        self.store[at] = v;
    }

    /// Writes `bytes` over those from byte `at` on.
    #[inline]
    pub fn write(&mut self, at: usize, bytes: &[u8])
        requires { at + length bytes.now ≤ length self.old.bytes }
        ensures done { self.new ≡ written at bytes.now self.old }
        ensures len { length self.new.bytes ≡ length self.old.bytes }
    {
        let from = self.start + at;
        self.store
            .slice_mut(from..from + bytes.len())
            .copy_from_slice(bytes);
    }

    /// Makes the segment hold only `bytes`, from where its bytes begin when it is fresh.
    #[inline]
    pub fn fill(&mut self, bytes: &[u8])
        requires { length bytes.now ≤ room_of self.old }
        ensures { self.new ≡ appended bytes.now (fresh self.old) }
    {
        self.resize(bytes.len());
        self.write(0, bytes);
    }

    #[inline]
    pub fn bytes(&self) -> &[u8]
        ensures { result.now ≡ self.now.bytes }
    {
        let end = self.start + self.len;
        &self.store.as_slice()[self.start..end]
    }

    ghost use Rattle.std.specs.Borrow.{sem};
    ghost use Rattle.mbuf.specs.Lends.{LendsBytes};

    /// The bytes, for writing.
    pub fn bytes_mut(&mut self) -> &mut [u8]
        ensures* writes_back { sem 𝓛 (LendsBytes self.entry result) }
        ensures value { result.now ≡ self.old.bytes }
    {
        let start = self.start;
        let end = start + self.len;
        self.store.slice_mut(start..end)
    }

    /// Makes the segment `n` zero bytes long, from where its bytes begin when it is fresh.
    pub fn stretch(&mut self, n: usize)
        requires { n ≤ room_of self.old }
        ensures { self.new ≡ appended (replicate n 0) (fresh self.old) }
    {
        self.resize(n);
        self.bytes_mut().fill(0);
    }
}
