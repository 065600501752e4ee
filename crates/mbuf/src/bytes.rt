//! The bytes of a packet, wherever the segment boundaries are.
ghost use Rattle.std.specs.Prelude.{◌≡◌, ◌+◌, ◌<◌, ◌≤◌, ◌++◌, ◌↔◌, length, take, drop, slice_get, slice_set};
ghost use Rattle.std.specs.Prelude.{IfOk, IsErrOf, OnOk, OnErr};
ghost use Rattle.mbuf.specs.Buffer.{overwritten};
ghost use Rattle.mbuf.specs.Chain.{bytes_of, HasSameSegments, shape_of};

use crate::chain::Chain;
use crate::fault::ChainFault;

impl Chain {
    /// Byte `i` of the packet, if it has one.
    pub fn byte(&self, i: usize) -> Option<u8>
        ensures { result ≡ slice_get (bytes_of self.now) i }
    {
        if i >= self.len() {
            return None;
        }
        Some(self.first.byte(i))
    }

    /// Replaces byte `i` of the packet.
    ///
    /// Errors: 3 `TooShort` if the packet has no byte `i`; it is then unchanged.
    pub fn set(&mut self, i: usize, v: u8) -> Result<(), ChainFault>
        ensures packet { OnOk result (bytes_of self.new ≡ slice_set (bytes_of self.old) i v) }
        ensures shape { shape_of self.new ≡ shape_of self.old }
        ensures kept { HasSameSegments self.new self.old }
        ensures refused { IsErrOf result ChainFault.TooShort ↔ (length (bytes_of self.old) ≤ i) }
        ensures unchanged { OnErr result ((result ≡ Err ChainFault.TooShort) × (self.new ≡ self.old)) }
    {
        if i >= self.len() {
            return Err(ChainFault::TooShort);
        }
        self.first.set(i, v);
        Ok(())
    }

    /// Copies the bytes of the packet from byte `at` on to `out`, filling all of it.
    ///
    /// Errors: 3 `TooShort` if the packet has too few bytes from there on; `out` is then unchanged.
    pub fn bytes(&self, at: usize, out: &mut [u8]) -> Result<(), ChainFault>
        ensures done { OnOk result (out.new ≡ take (length out.old) (drop at (bytes_of self.now))) }
        ensures refused { IsErrOf result ChainFault.TooShort ↔ (length (bytes_of self.now) < at + length out.old) }
        ensures unchanged { OnErr result ((result ≡ Err ChainFault.TooShort) × (out.new ≡ out.old)) }
    {
        if at > self.len() || out.len() > self.len() - at {
            return Err(ChainFault::TooShort);
        }
        self.first.copy_out(at, out);
        Ok(())
    }

    /// Writes `bytes` over those of the packet from byte `at` on: what `bytes` then reads back.
    ///
    /// Errors: 3 `TooShort` if the packet has too few bytes from there on; it is then unchanged.
    pub fn write(&mut self, at: usize, bytes: &[u8]) -> Result<(), ChainFault>
        ensures packet { OnOk result (bytes_of self.new ≡ overwritten at bytes.now (bytes_of self.old)) }
        ensures shape { shape_of self.new ≡ shape_of self.old }
        ensures kept { HasSameSegments self.new self.old }
        ensures refused { IsErrOf result ChainFault.TooShort ↔ (length (bytes_of self.old) < at + length bytes.now) }
        ensures unchanged { OnErr result ((result ≡ Err ChainFault.TooShort) × (self.new ≡ self.old)) }
    {
        if at > self.len() || bytes.len() > self.len() - at {
            return Err(ChainFault::TooShort);
        }
        self.first.write(at, bytes);
        Ok(())
    }

    /// Copies the whole packet to the front of `out`, and returns its length.
    ///
    /// Errors: 3 `TooShort` if `out` is shorter than the packet; it is then unchanged.
    pub fn linear_copy(&self, out: &mut [u8]) -> Result<usize, ChainFault>
        ensures done { IfOk result (λ n. n ≡ length (bytes_of self.now)) }
        ensures copied { OnOk result (out.new ≡ bytes_of self.now ++ drop (length (bytes_of self.now)) out.old) }
        ensures refused { IsErrOf result ChainFault.TooShort ↔ (length out.old < length (bytes_of self.now)) }
        ensures unchanged { OnErr result ((result ≡ Err ChainFault.TooShort) × (out.new ≡ out.old)) }
    {
        let len = self.len();
        if out.len() < len {
            return Err(ChainFault::TooShort);
        }
        self.first.copy_out(0, &mut out[..len]);
        Ok(len)
    }
}
