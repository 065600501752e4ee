//! A device whose failures are counted, so that a caller can distinguish a failure of the device from one of its own.
ghost use Rattle.std.specs.Prelude.{◌≡◌, ◌<◌, length, IfOk, OnOk, OnErr};
ghost use Rattle.std.specs.Io.{ReadsAtMost, WritesAtMost};
ghost use Rattle.std.specs.Io.KnownBytes.{Keeps, ReadConsumes, WriteAppends};

use std::io::{Read, Write};

/// A device failed: its count of failures has increased.
#[derive(Clone, Copy, Debug)]
pub(crate) struct Failed;

/// A reader or a writer, and how often it failed: returned an `Err`, `Interrupted` included, or wrote none of the bytes
/// of a non-empty write. The count stops at its maximum, 2^64 - 1.
#[derive(Debug, Drop)]
pub struct Counted<D> {
    device: D,
    failures: u64,
}

impl<D> Counted<D> {
    ghost use Rattle.pcapio.specs.Counted.{device_of, failures_of, HasFailed};

    /// A device that hasn't failed yet.
    pub fn new(device: D) -> Counted<D>
        ensures device { device_of result ≡ device }
        ensures failures { failures_of result ≡ 0 }
    {
        Counted {
            device,
            failures: 0,
        }
    }

    /// How often the device failed.
    pub fn failures(&self) -> u64
        ensures { result ≡ failures_of self.now }
    {
        self.failures
    }

    /// The device.
    pub fn into_inner(self) -> D
        ensures { result ≡ device_of self }
    {
        self.device
    }

    fn fail(&mut self) -> Failed
        ensures device { device_of self.new ≡ device_of self.old }
        ensures failures { HasFailed self.old self.new }
    {
        // The count stays at its maximum: wrapping around would hide failures.
        self.failures = self.failures.saturating_add(1);
        Failed
    }
}

impl<R: Read> Counted<R> {
    ghost use Rattle.pcapio.specs.Counted.{to_come, HasFailed, HasNotFailed};

    /// Reads once.
    #[inline]
    pub(crate) fn read(&mut self, buf: &mut [u8]) -> Result<usize, Failed>
        ensures bound { ReadsAtMost result buf.new }
        ensures bytes { ReadConsumes (to_come R.remaining self.old) (to_come R.remaining self.new) result buf.new }
        ensures ok { OnOk result (HasNotFailed self.old self.new) }
        ensures err { OnErr result (HasFailed self.old self.new) }
    {
        match self.device.read(buf) {
            Ok(count) => Ok(count),
            Err(_) => Err(self.fail()),
        }
    }
}

impl<W: Write> Counted<W> {
    ghost use Rattle.pcapio.specs.Counted.{told, HasFailed, HasNotFailed};

    /// Writes once. Requires: there is something to write.
    #[inline]
    pub(crate) fn write(&mut self, buf: &[u8]) -> Result<usize, Failed>
        requires { 0 < length buf.now }
        ensures bound { WritesAtMost result buf.now }
        ensures nonzero { IfOk result (λ count. 0 < count) }
        ensures bytes { WriteAppends (told W.contents self.old) (told W.contents self.new) result buf.now }
        ensures ok { OnOk result (HasNotFailed self.old self.new) }
        ensures err { OnErr result (HasFailed self.old self.new) }
    {
        match self.device.write(buf) {
            Ok(0) | Err(_) => Err(self.fail()),
            Ok(count) => Ok(count),
        }
    }

    /// Asks the device to flush what it holds back.
    pub(crate) fn flush(&mut self) -> Result<(), Failed>
        ensures bytes { Keeps (told W.contents self.old) (told W.contents self.new) }
        ensures ok { OnOk result (HasNotFailed self.old self.new) }
        ensures err { OnErr result (HasFailed self.old self.new) }
    {
        match self.device.flush() {
            Ok(()) => Ok(()),
            Err(_) => Err(self.fail()),
        }
    }
}
