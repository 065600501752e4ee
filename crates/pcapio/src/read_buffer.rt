//! The reader's buffer: what was read from the device and not yet consumed. It is allocated once.
ghost use Rattle.std.specs.Prelude.{◌≡◌, ◌+◌, ◌<◌, ◌≤◌, [], ◌++◌, length, take, drop, min, vec_len};
ghost use Rattle.std.specs.Prelude.{IfOk, OnOk, OnErr};
ghost use Rattle.std.specs.Io.{ReadsAtMost};
ghost use Rattle.std.specs.Io.KnownBytes.{Keeps, IsAtEnd};
ghost use Rattle.pcapio.specs.Answer.{OnAll, OnCut};
ghost use Rattle.pcapio.specs.Counted.{to_come, GivesAt, HasFailed, HasNotFailed};

mod lending;

use crate::counted::{Counted, Failed};
use std::alloc::{AllocError, Global};
use std::io::Read;

/// The size of a buffer, in bytes.
pub(crate) const ROOM: usize = 65_536;

/// A piece of at least this many bytes, none of which is buffered, is read directly.
const DIRECT: usize = 16_384;

/// A row of fixed length. The bytes from `start` to `end` were read and not yet consumed.
#[derive(Debug, Drop)]
pub(crate) struct ReadBuffer {
    buffer: Vec<u8>,
    start: usize,
    end: usize,
    ghost ordered: { start ≤ end },
    ghost within: { end ≤ 65536 },
    ghost room: { vec_len buffer ≡ 65536 },
}

impl ReadBuffer {
    ghost use Rattle.pcapio.specs.ReadBuffer.{items, HasFewer, KeepsAll, Gives, LetsGo, ReadGives};

    pub(crate) fn new(alloc: Global) -> Result<ReadBuffer, AllocError>
        ensures { IfOk result (λ ahead. items ahead ≡ []) }
    {
        let mut buffer = Vec::with_capacity(alloc, ROOM)?;
        buffer.resize(ROOM, 0)?;
        Ok(ReadBuffer {
            buffer,
            start: 0,
            end: 0,
        })
    }

    #[inline]
    pub(crate) fn len(&self) -> usize
        ensures value { result ≡ length (items self.now) }
        ensures bound { result ≤ 65536 }
    {
        self.end - self.start
    }

    #[inline]
    pub(crate) fn as_slice(&self) -> &[u8]
        ensures { result.now ≡ items self.now }
    {
        let (start, end) = (self.start, self.end);
        let all = self.buffer.as_slice();
        &all[start..end]
    }

    /// Consumes the first `count` bytes.
    #[inline]
    pub(crate) fn consume(&mut self, count: usize)
        requires { count ≤ length (items self.old) }
        ensures { items self.new ≡ drop count (items self.old) }
    {
        self.start += count;
    }

    /// Moves the buffered bytes to the front, so that there is room after them.
    fn move_to_front(&mut self)
        ensures items { items self.new ≡ items self.old }
        ensures start { self.new.start ≡ 0 }
    {
        let (start, end) = (self.start, self.end);
        self.buffer.as_mut_slice().copy_within(start..end, 0);
        self.start = 0;
        self.end = end - start;
    }

    /// Reads once, after the buffered bytes.
    fn read_behind<R: Read>(&mut self, device: &mut Counted<R>) -> Result<usize, Failed>
        ensures all { KeepsAll R.remaining self.old device.old self.new device.new }
        ensures more { IfOk result (λ count. length (items self.new) ≡ length (items self.old) + count) }
        ensures end { self.old.end < 65536 → IfOk result (λ n. n ≡ 0 → IsAtEnd (to_come R.remaining device.new)) }
        ensures start { self.new.start ≡ self.old.start }
        ensures ok { OnOk result (HasNotFailed device.old device.new) }
        ensures err { OnErr result (HasFailed device.old device.new) }
    {
        let end = self.end;
        let count = read_at(device, &mut self.buffer, end)?;
        self.end = end + count;
        Ok(count)
    }

    /// Reads until `count` bytes are buffered, or the device has no more.
    pub(crate) fn gather<R: Read>(
        &mut self,
        device: &mut Counted<R>,
        count: usize,
    ) -> Result<bool, Failed>
        requires { count ≤ 65536 }
        ensures all { KeepsAll R.remaining self.old device.old self.new device.new }
        ensures whole { OnAll result (count ≤ length (items self.new)) }
        ensures short { OnCut result (length (items self.new) < count) }
        ensures end { OnCut result (IsAtEnd (to_come R.remaining device.new)) }
        ensures ok { OnOk result (HasNotFailed device.old device.new) }
        ensures err { OnErr result (HasFailed device.old device.new) }
    {
        if self.len() >= count {
            return Ok(true);
        }
        self.move_to_front();
        while self.len() < count {
            if self.read_behind(device)? == 0 {
                return Ok(false);
            }
        }
        Ok(true)
    }

    /// Reads once if nothing is buffered, and returns how many bytes then are: 0 only if the device has no more.
    fn ready<R: Read>(&mut self, device: &mut Counted<R>) -> Result<usize, Failed>
        ensures all { KeepsAll R.remaining self.old device.old self.new device.new }
        ensures count { IfOk result (λ count. count ≡ length (items self.new)) }
        ensures end { IfOk result (λ count. count ≡ 0 → IsAtEnd (to_come R.remaining device.new)) }
        ensures ok { OnOk result (HasNotFailed device.old device.new) }
        ensures err { OnErr result (HasFailed device.old device.new) }
    {
        if self.len() == 0 {
            self.move_to_front();
            self.read_behind(device)?;
        }
        Ok(self.len())
    }

    /// Moves bytes from the front to `out`, as many as both have.
    #[inline]
    fn give(&mut self, out: &mut [u8]) -> usize
        ensures count { result ≡ min (length out.old) (length (items self.old)) }
        ensures bytes { items self.old ≡ take result out.new ++ items self.new }
    {
        let there = self.as_slice();
        let count = out.len().min(there.len());
        out[..count].copy_from_slice(&there[..count]);
        self.consume(count);
        count
    }

    /// Reads once. A large piece, none of which is buffered, bypasses the buffer.
    fn read<R: Read>(&mut self, device: &mut Counted<R>, out: &mut [u8]) -> Result<usize, Failed>
        ensures bound { ReadsAtMost result out.new }
        ensures bytes { ReadGives R.remaining self.old device.old self.new device.new result out.new }
        ensures ok { OnOk result (HasNotFailed device.old device.new) }
        ensures err { OnErr result (HasFailed device.old device.new) }
    {
        if self.len() == 0 && out.len() >= DIRECT {
            return device.read(out);
        }
        self.ready(device)?;
        Ok(self.give(out))
    }

    /// Fills the whole of `out`, or reports that fewer bytes are left.
    pub(crate) fn fill<R: Read>(
        &mut self,
        device: &mut Counted<R>,
        out: &mut [u8],
    ) -> Result<bool, Failed>
        ensures whole { OnAll result (Gives R.remaining self.old device.old self.new device.new out.new) }
        ensures short { OnCut result (HasFewer R.remaining (length out.old) self.old device.old) }
        ensures ok { OnOk result (HasNotFailed device.old device.new) }
        ensures err { OnErr result (HasFailed device.old device.new) }
    {
        let mut at = 0;
        while at < out.len() {
            let count = self.read(device, &mut out[at..])?;
            if count == 0 {
                return Ok(false);
            }
            at += count;
        }
        Ok(true)
    }

    /// Skips `count` bytes, or reports that fewer are left.
    pub(crate) fn skip<R: Read>(
        &mut self,
        device: &mut Counted<R>,
        count: usize,
    ) -> Result<bool, Failed>
        ensures whole { OnAll result (LetsGo R.remaining self.old device.old self.new device.new count) }
        ensures short { OnCut result (HasFewer R.remaining count self.old device.old) }
        ensures ok { OnOk result (HasNotFailed device.old device.new) }
        ensures err { OnErr result (HasFailed device.old device.new) }
    {
        let mut left = count;
        while left > 0 {
            let there = self.ready(device)?;
            if there == 0 {
                return Ok(false);
            }
            let gone = there.min(left);
            self.consume(gone);
            left -= gone;
        }
        Ok(true)
    }
}

/// Reads once into the buffer from byte `at` on.
fn read_at<R: Read>(
    device: &mut Counted<R>,
    buffer: &mut Vec<u8>,
    at: usize,
) -> Result<usize, Failed>
    requires { at ≤ vec_len buffer.old }
    ensures len { vec_len buffer.new ≡ vec_len buffer.old }
    ensures front { take at buffer.new.items ≡ take at buffer.old.items }
    ensures bound { IfOk result (λ count. at + count ≤ vec_len buffer.old) }
    ensures bytes { IfOk result (λ count. GivesAt R.remaining device.old device.new buffer.new.items at count) }
    ensures end { at < vec_len buffer.old → IfOk result (λ n. n ≡ 0 → IsAtEnd (to_come R.remaining device.new)) }
    ensures none { OnErr result (Keeps (to_come R.remaining device.old) (to_come R.remaining device.new)) }
    ensures ok { OnOk result (HasNotFailed device.old device.new) }
    ensures err { OnErr result (HasFailed device.old device.new) }
{
    device.read(&mut buffer.as_mut_slice()[at..])
}
