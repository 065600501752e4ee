//! Bytes added before and after a packet, and cut off again, as protocol layers do with their headers.
ghost use Rattle.std.specs.Prelude.{◌≡◌, ◌<◌, ◌++◌, ◌↔◌, length, drop, IsErrOf, OnOk, OnErr};
ghost use Rattle.mbuf.specs.Buffer.{prepended, appended, cut_front, cut_back};
ghost use Rattle.mbuf.specs.Chain.{bytes_of, HasSameSegments, without_last, headroom_of, tailroom_of, first_bytes};
ghost use Rattle.mbuf.specs.Chain.{last_bytes, at_segment, at_last};

use crate::chain::Chain;
use crate::fault::ChainFault;

impl Chain {
    /// Puts `bytes` before those of the first segment.
    ///
    /// Errors: 1 `NoHeadroom` if the first segment has too little headroom; the packet is then unchanged.
    #[inline]
    pub fn prepend(&mut self, bytes: &[u8]) -> Result<(), ChainFault>
        ensures done { OnOk result (self.new ≡ at_segment 0 (prepended bytes.now) self.old) }
        ensures packet { OnOk result (bytes_of self.new ≡ bytes.now ++ bytes_of self.old) }
        ensures kept { HasSameSegments self.new self.old }
        ensures refused { IsErrOf result ChainFault.NoHeadroom ↔ (headroom_of self.old < length bytes.now) }
        ensures unchanged { OnErr result ((result ≡ Err ChainFault.NoHeadroom) × (self.new ≡ self.old)) }
    {
        if bytes.len() > self.first.headroom() {
            return Err(ChainFault::NoHeadroom);
        }
        self.first.prepend(bytes);
        self.len += bytes.len() as u32;
        Ok(())
    }

    /// Puts `bytes` after those of the last segment.
    ///
    /// Errors: 2 `NoTailroom` if the last segment has too little tailroom; the packet is then unchanged.
    #[inline]
    pub fn append(&mut self, bytes: &[u8]) -> Result<(), ChainFault>
        ensures done { OnOk result (self.new ≡ at_last (appended bytes.now) self.old) }
        ensures packet { OnOk result (bytes_of self.new ≡ bytes_of self.old ++ bytes.now) }
        ensures kept { HasSameSegments self.new self.old }
        ensures refused { IsErrOf result ChainFault.NoTailroom ↔ (tailroom_of self.old < length bytes.now) }
        ensures unchanged { OnErr result ((result ≡ Err ChainFault.NoTailroom) × (self.new ≡ self.old)) }
    {
        self.first.append(bytes)?;
        self.len += bytes.len() as u32;
        Ok(())
    }

    /// Cuts `n` bytes off the front of the first segment.
    ///
    /// Errors: 3 `TooShort` if that segment has fewer; the packet is then unchanged.
    #[inline]
    pub fn adj(&mut self, n: usize) -> Result<(), ChainFault>
        ensures done { OnOk result (self.new ≡ at_segment 0 (cut_front n) self.old) }
        ensures packet { OnOk result (bytes_of self.new ≡ drop n (bytes_of self.old)) }
        ensures kept { HasSameSegments self.new self.old }
        ensures refused { IsErrOf result ChainFault.TooShort ↔ (length (first_bytes self.old) < n) }
        ensures unchanged { OnErr result ((result ≡ Err ChainFault.TooShort) × (self.new ≡ self.old)) }
    {
        if n > self.first.first_len() {
            return Err(ChainFault::TooShort);
        }
        self.first.cut_front(n);
        self.len -= n as u32;
        Ok(())
    }

    /// Cuts `n` bytes off the end of the last segment.
    ///
    /// Errors: 3 `TooShort` if that segment has fewer; the packet is then unchanged.
    #[inline]
    pub fn trim(&mut self, n: usize) -> Result<(), ChainFault>
        ensures done { OnOk result (self.new ≡ at_last (cut_back n) self.old) }
        ensures packet { OnOk result (bytes_of self.new ≡ without_last n self.old) }
        ensures kept { HasSameSegments self.new self.old }
        ensures refused { IsErrOf result ChainFault.TooShort ↔ (length (last_bytes self.old) < n) }
        ensures unchanged { OnErr result ((result ≡ Err ChainFault.TooShort) × (self.new ≡ self.old)) }
    {
        self.first.cut_back(n)?;
        self.len -= n as u32;
        Ok(())
    }
}
