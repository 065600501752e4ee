//! The writer's buffer: what is waiting to be written to the device. It is allocated once.
ghost use Rattle.std.specs.Prelude.{◌≡◌, ◌+◌, ◌≤◌, [], ◌++◌, length, take, vec_len, IfOk, OnOk, OnErr};
ghost use Rattle.pcapio.specs.Counted.{Tells, BeginsToTell, HasFailed, HasNotFailed};

use crate::counted::{Counted, Failed};
use crate::read_buffer::ROOM;
use std::alloc::{AllocError, Global};
use std::io::Write;

/// A piece of at least this many bytes that doesn't fit is written directly.
const DIRECT: usize = 16_384;

/// A row of fixed length. Its first `len` bytes are waiting.
#[derive(Debug, Drop)]
pub(crate) struct WriteBuffer {
    buffer: Vec<u8>,
    len: usize,
    ghost within: { len ≤ 65536 },
    ghost room: { vec_len buffer ≡ 65536 },
}

impl WriteBuffer {
    ghost use Rattle.pcapio.specs.WriteBuffer.{waiting, Adds, BeginsToAdd, SendsAll, BeginsToSend};

    pub(crate) fn new(alloc: Global) -> Result<WriteBuffer, AllocError>
        ensures { IfOk result (λ behind. waiting behind ≡ []) }
    {
        let mut buffer = Vec::with_capacity(alloc, ROOM)?;
        buffer.resize(ROOM, 0)?;
        Ok(WriteBuffer { buffer, len: 0 })
    }

    /// Buffers the first bytes.
    pub(crate) fn begin(&mut self, bytes: &[u8])
        requires empty { waiting self.old ≡ [] }
        requires at_most { length bytes.now ≤ 24 }
        ensures { waiting self.new ≡ bytes.now }
    {
        self.len = 0;
        self.append(bytes);
    }

    #[inline]
    fn append(&mut self, bytes: &[u8])
        requires { self.old.len + length bytes.now ≤ 65536 }
        ensures { waiting self.new ≡ waiting self.old ++ bytes.now }
    {
        let len = self.len;
        write_at(&mut self.buffer, len, bytes);
        self.len = len + bytes.len();
    }

    /// Writes everything that is waiting. After a failure, a prefix of it has been written to the device.
    pub(crate) fn write_out<W: Write>(&mut self, device: &mut Counted<W>) -> Result<(), Failed>
        ensures ok { OnOk result (SendsAll W.contents self.old device.old device.new) }
        ensures empty { OnOk result (waiting self.new ≡ []) }
        ensures len { OnOk result (self.new.len ≡ 0) }
        ensures begins { OnErr result (BeginsToSend W.contents self.old device.old device.new) }
        ensures no_failure { OnOk result (HasNotFailed device.old device.new) }
        ensures failed { OnErr result (HasFailed device.old device.new) }
    {
        let len = self.len;
        let all = self.buffer.as_slice();
        send(device, &all[..len])?;
        self.len = 0;
        Ok(())
    }

    /// Adds bytes to what is waiting. After a failure, a prefix of all of it has been written to the device.
    #[inline]
    pub(crate) fn add<W: Write>(
        &mut self,
        device: &mut Counted<W>,
        bytes: &[u8],
    ) -> Result<(), Failed>
        ensures ok { OnOk result (Adds W.contents self.old device.old self.new device.new bytes.now) }
        ensures begins { OnErr result (BeginsToAdd W.contents self.old device.old device.new bytes.now) }
        ensures no_failure { OnOk result (HasNotFailed device.old device.new) }
        ensures failed { OnErr result (HasFailed device.old device.new) }
    {
        if bytes.len() > ROOM - self.len {
            return self.add_past(device, bytes);
        }
        self.append(bytes);
        Ok(())
    }

    /// Adds bytes, if there is too little room: writes what is waiting, and then keeps them, or writes them too if they
    /// are many.
    fn add_past<W: Write>(&mut self, device: &mut Counted<W>, bytes: &[u8]) -> Result<(), Failed>
        ensures ok { OnOk result (Adds W.contents self.old device.old self.new device.new bytes.now) }
        ensures begins { OnErr result (BeginsToAdd W.contents self.old device.old device.new bytes.now) }
        ensures no_failure { OnOk result (HasNotFailed device.old device.new) }
        ensures failed { OnErr result (HasFailed device.old device.new) }
    {
        self.write_out(device)?;
        if bytes.len() >= DIRECT {
            send(device, bytes)?;
        } else {
            self.append(bytes);
        }
        Ok(())
    }
}

/// Copies bytes into the buffer from byte `at` on.
#[inline]
fn write_at(buffer: &mut Vec<u8>, at: usize, bytes: &[u8])
    requires { at + length bytes.now ≤ vec_len buffer.old }
    ensures len { vec_len buffer.new ≡ vec_len buffer.old }
    ensures front { take (at + length bytes.now) buffer.new.items ≡ take at buffer.old.items ++ bytes.now }
{
    buffer.as_mut_slice()[at..at + bytes.len()].copy_from_slice(bytes);
}

/// Writes all of the bytes. After a failure, a prefix of them has been written to the device.
fn send<W: Write>(device: &mut Counted<W>, bytes: &[u8]) -> Result<(), Failed>
    ensures ok { OnOk result (Tells W.contents device.old device.new bytes.now) }
    ensures begins { OnErr result (BeginsToTell W.contents device.old device.new bytes.now) }
    ensures no_failure { OnOk result (HasNotFailed device.old device.new) }
    ensures failed { OnErr result (HasFailed device.old device.new) }
{
    let mut at = 0;
    while at < bytes.len() {
        at += device.write(&bytes[at..])?;
    }
    Ok(())
}
