//! Emptying packets, and filling them from the first segment on.
ghost use Rattle.std.specs.Prelude.{◌≡◌, ◌+◌, ◌<◌, ◌≤◌, ◌↔◌, [], length, take, drop, replicate, IsErrOf, OnOk, OnErr};
ghost use Rattle.mbuf.specs.Chain.{bytes_of, fresh_of, HasSameSegments, space_of, shape_of, filled};

use crate::chain::Chain;
use crate::fault::ChainFault;

impl Chain {
    /// Makes each segment fresh: without bytes, and with its original headroom. The links are kept.
    pub fn reset(&mut self)
        ensures done { self.new ≡ fresh_of self.old }
        ensures packet { bytes_of self.new ≡ [] }
        ensures kept { HasSameSegments self.new self.old }
    {
        self.first.reset();
        self.len = 0;
    }

    /// How many bytes the packet can have when the chain is filled from its first segment on.
    pub fn space(&self) -> usize
        ensures { result ≡ space_of self.now }
    {
        self.first.space()
    }

    /// Makes the packet `n` zero bytes long, filled from the first segment on, each with its original headroom. The
    /// chain's previous bytes are overwritten.
    ///
    /// Errors: 2 `NoTailroom` if `n` is above `space`; the packet is then unchanged.
    pub fn stretch(&mut self, n: usize) -> Result<(), ChainFault>
        ensures done { OnOk result (self.new ≡ filled (replicate n 0) self.old) }
        ensures packet { OnOk result (bytes_of self.new ≡ replicate n 0) }
        ensures kept { HasSameSegments self.new self.old }
        ensures refused { IsErrOf result ChainFault.NoTailroom ↔ (space_of self.old < n) }
        ensures unchanged { OnErr result ((result ≡ Err ChainFault.NoTailroom) × (self.new ≡ self.old)) }
    {
        if n > self.first.space() {
            return Err(ChainFault::NoTailroom);
        }
        self.first.stretch(n);
        self.len = n as u32;
        Ok(())
    }

    /// Makes the packet `n` bytes long as `stretch` does, without writing any of them: their values are not specified.
    /// For a caller that then fills its segments by `part_mut`.
    ///
    /// Errors: 2 `NoTailroom` if `n` is above `space`; the packet is then unchanged.
    pub fn resize(&mut self, n: usize) -> Result<(), ChainFault>
        ensures len { OnOk result (length (bytes_of self.new) ≡ n) }
        ensures shape { OnOk result (shape_of self.new ≡ filled (replicate n 0) self.old) }
        ensures kept { HasSameSegments self.new self.old }
        ensures refused { IsErrOf result ChainFault.NoTailroom ↔ (space_of self.old < n) }
        ensures unchanged { OnErr result ((result ≡ Err ChainFault.NoTailroom) × (self.new ≡ self.old)) }
    {
        if n > self.first.space() {
            return Err(ChainFault::NoTailroom);
        }
        self.first.resize(n);
        self.len = n as u32;
        Ok(())
    }

    /// Replaces the packet by these bytes, filled from the first segment on, each with its original headroom. The
    /// chain's previous bytes are overwritten.
    ///
    /// Errors: 2 `NoTailroom` if they are more than `space`; the packet is then unchanged.
    pub fn fill(&mut self, bytes: &[u8]) -> Result<(), ChainFault>
        ensures done { OnOk result (self.new ≡ filled bytes.now self.old) }
        ensures packet { OnOk result (bytes_of self.new ≡ bytes.now) }
        ensures kept { HasSameSegments self.new self.old }
        ensures refused { IsErrOf result ChainFault.NoTailroom ↔ (space_of self.old < length bytes.now) }
        ensures unchanged { OnErr result ((result ≡ Err ChainFault.NoTailroom) × (self.new ≡ self.old)) }
    {
        if bytes.len() > self.first.space() {
            return Err(ChainFault::NoTailroom);
        }
        self.first.fill(bytes);
        self.len = bytes.len() as u32;
        Ok(())
    }

    /// Fills the chain from its first segment on with `n` bytes of `source`, from its byte `at` on.
    pub(crate) fn fill_from(&mut self, source: &Chain, at: usize, n: usize)
        requires there { at + n ≤ length (bytes_of source.now) }
        requires room { n ≤ space_of self.old }
        ensures done { self.new ≡ filled (take n (drop at (bytes_of source.now))) self.old }
        ensures packet { bytes_of self.new ≡ take n (drop at (bytes_of source.now)) }
        ensures kept { HasSameSegments self.new self.old }
    {
        self.first.fill_from(&source.first, at, n);
        self.len = n as u32;
    }
}
