//! Records whose bytes are in a slice.
ghost use Rattle.std.specs.Prelude.{◌≡◌, ◌++◌, Some, IfErr, OnOk, OnErr};
ghost use Rattle.pcapio.specs.WriteBuffer.{Adds, BeginsToAdd};
ghost use Rattle.pcapio.specs.Counted.{HasFailed, HasNotFailed};
ghost use Rattle.pcapio.specs.Writer.{fault_of, sink_of, IsWell, Fails, PutsFrame, BeginsToPutFrame};

use crate::counted::{Counted, Failed};
use crate::text::header_of_frame;
use crate::write_buffer::WriteBuffer;
use crate::writer::Writer;
use pcapio_laws::CapFault;
use std::io::Write;

impl<W: Write> Writer<W> {
    /// Adds the record of a packet with these bytes: what `put` does for those of a chain. Takes no memory.
    ///
    /// The file is known to be a capture if there are at most `MAX_CAPTURED` bytes and `wire` isn't below their number;
    /// this call doesn't test it.
    ///
    /// Errors: 6 `Write` if the device failed.
    #[inline]
    pub fn put_frame(
        &mut self,
        seconds: u32,
        fraction: u32,
        wire: u32,
        frame: &[u8],
    ) -> Result<(), CapFault>
        ensures ok { OnOk result (PutsFrame W.contents self.old self.new seconds fraction wire frame.now) }
        ensures no_failure { OnOk result (IsWell self.new) }
        ensures worked { OnOk result (HasNotFailed (sink_of self.old) (sink_of self.new)) }

        // Faults. A prefix of what was to be written has then been written to the device.
        ensures begins { OnErr result (BeginsToPutFrame W.contents self.old self.new seconds fraction wire frame.now) }
        ensures fault { IfErr result (λ fault. fault_of self.new ≡ Some fault) }
        ensures cause { IsWell self.old → IfErr result (λ fault. fault ≡ CapFault.Write) }
        ensures failed { IsWell self.old → OnErr result (Fails self.old self.new) }
        ensures stays { (f : CapFault) → fault_of self.old ≡ Some f → (result ≡ Err f) × (self.new ≡ self.old) }
    {
        if let Some(fault) = self.fault {
            return Err(fault);
        }
        let head = header_of_frame(seconds, fraction, wire, frame);
        match add_both(&mut self.behind, &mut self.device, &head, frame) {
            Ok(()) => Ok(()),
            Err(Failed) => Err(self.give_up()),
        }
    }
}

/// Adds a header and the bytes after it to what is waiting. After a failure, a prefix of all of it has been written to
/// the device.
#[inline]
fn add_both<W: Write>(
    behind: &mut WriteBuffer,
    device: &mut Counted<W>,
    head: &[u8],
    frame: &[u8],
) -> Result<(), Failed>
    ensures ok { OnOk result (Adds W.contents behind.old device.old behind.new device.new (head.now ++ frame.now)) }
    ensures begins { OnErr result (BeginsToAdd W.contents behind.old device.old device.new (head.now ++ frame.now)) }
    ensures no_failure { OnOk result (HasNotFailed device.old device.new) }
    ensures failed { OnErr result (HasFailed device.old device.new) }
{
    behind.add(device, head)?;
    behind.add(device, frame)
}
