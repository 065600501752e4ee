//! The writer of a capture: little-endian, Ethernet, with the resolution given to `open`.
ghost use Rattle.std.specs.Prelude.{◌≡◌, Some, None, IfOk, IfErr, OnOk, OnErr};
ghost use Rattle.std.specs.Io.KnownBytes.{Keeps};
ghost use Rattle.pcapio.specs.WriteBuffer.{AddsRecord, BeginsToAddRecord, SendsAll, BeginsToSend, KeepsUnsent};
ghost use Rattle.pcapio.specs.Counted.{HasFailed, HasNotFailed};

mod frames;

use crate::counted::{Counted, Failed};
use crate::text::{header_bytes, header_of};
use crate::write_buffer::WriteBuffer;
use mbuf::Chain;
use pcapio_laws::{CapFault, Resolution};
use std::alloc::Global;
use std::io::Write;

/// A writer of a capture. After a fault it returns that fault again and doesn't touch its device.
#[derive(Debug, Drop)]
pub struct Writer<W> {
    device: Counted<W>,
    behind: WriteBuffer,
    fault: Option<CapFault>,
}

impl<W: Write> Writer<W> {
    ghost use Rattle.pcapio.specs.Writer.{text, fault_of, sink_of, IsWell, Fails};
    ghost use Rattle.pcapio.specs.Writer.{Opens, Puts, BeginsToPut, IsTold, IsToldPart};

    /// A writer of a capture on the device. All memory it needs is taken here: a buffer of 64 KiB, in which the file
    /// header waits.
    ///
    /// Errors: 7 `Memory`, with the device handed back untouched.
    pub fn open(
        alloc: Global,
        device: Counted<W>,
        resolution: Resolution,
    ) -> Result<Writer<W>, (Counted<W>, CapFault)>
        ensures text { IfOk result (Opens W.contents device resolution) }
        ensures begins { IfOk result IsWell }
        ensures device { IfOk result (λ opened. sink_of opened ≡ device) }
        ensures cause { IfErr result (λ refused. refused ≡ (device, CapFault.Memory)) }
    {
        let Ok(mut behind) = WriteBuffer::new(alloc) else {
            return Err((device, CapFault::Memory));
        };
        behind.begin(&header_bytes(resolution));
        Ok(Writer {
            device,
            behind,
            fault: None,
        })
    }

    /// Adds the record of a packet whose bytes are in a chain. Takes no memory.
    ///
    /// The file is known to be a capture if the chain has at most `MAX_CAPTURED` bytes and `wire` isn't below its
    /// length; this call doesn't test it.
    ///
    /// Errors: 6 `Write` if the device failed.
    pub fn put(
        &mut self,
        seconds: u32,
        fraction: u32,
        wire: u32,
        chain: &Chain,
    ) -> Result<(), CapFault>
        ensures ok { OnOk result (Puts W.contents self.old self.new seconds fraction wire chain.now) }
        ensures no_failure { OnOk result (IsWell self.new) }
        ensures worked { OnOk result (HasNotFailed (sink_of self.old) (sink_of self.new)) }

        // Faults. A prefix of what was to be written has then been written to the device.
        ensures begins { OnErr result (BeginsToPut W.contents self.old self.new seconds fraction wire chain.now) }
        ensures fault { IfErr result (λ fault. fault_of self.new ≡ Some fault) }
        ensures cause { IsWell self.old → IfErr result (λ fault. fault ≡ CapFault.Write) }
        ensures failed { IsWell self.old → OnErr result (Fails self.old self.new) }
        ensures stays { (f : CapFault) → fault_of self.old ≡ Some f → (result ≡ Err f) × (self.new ≡ self.old) }
    {
        if let Some(fault) = self.fault {
            return Err(fault);
        }
        let head = header_of(seconds, fraction, wire, chain);
        match put_record(&mut self.behind, &mut self.device, &head, chain) {
            Ok(()) => Ok(()),
            Err(Failed) => Err(self.give_up()),
        }
    }

    /// Writes everything that was put to the device, and flushes the device. Takes no memory.
    ///
    /// Errors: 6 `Write` if the device failed.
    pub fn flush(&mut self) -> Result<(), CapFault>
        ensures ok { OnOk result (IsTold W.contents self.old self.new) }
        ensures text { OnOk result (Keeps (text W.contents self.old) (text W.contents self.new)) }
        ensures no_failure { OnOk result (IsWell self.new) }
        ensures worked { OnOk result (HasNotFailed (sink_of self.old) (sink_of self.new)) }

        // Faults. A prefix of it has then been written to the device.
        ensures begins { OnErr result (IsToldPart W.contents self.old self.new) }
        ensures fault { IfErr result (λ fault. fault_of self.new ≡ Some fault) }
        ensures cause { IsWell self.old → IfErr result (λ fault. fault ≡ CapFault.Write) }
        ensures failed { IsWell self.old → OnErr result (Fails self.old self.new) }
        ensures stays { (f : CapFault) → fault_of self.old ≡ Some f → (result ≡ Err f) × (self.new ≡ self.old) }
    {
        if let Some(fault) = self.fault {
            return Err(fault);
        }
        match flush_all(&mut self.behind, &mut self.device) {
            Ok(()) => Ok(()),
            Err(Failed) => Err(self.give_up()),
        }
    }

    /// The device. What is still waiting isn't written.
    pub fn into_inner(self) -> Counted<W>
        ensures { result ≡ sink_of self }
    {
        self.device
    }

    fn give_up(&mut self) -> CapFault
        ensures fault { result ≡ CapFault.Write }
        ensures kept { fault_of self.new ≡ Some CapFault.Write }
        ensures device { sink_of self.new ≡ sink_of self.old }
    {
        self.fault = Some(CapFault::Write);
        CapFault::Write
    }
}

/// Adds a record to what is waiting. After a failure, a prefix of all of it has been written to the device.
fn put_record<W: Write>(
    behind: &mut WriteBuffer,
    device: &mut Counted<W>,
    head: &[u8],
    chain: &Chain,
) -> Result<(), Failed>
    ensures ok { OnOk result (AddsRecord W.contents behind.old device.old behind.new device.new head.now chain.now) }
    ensures begins { OnErr result (BeginsToAddRecord W.contents behind.old device.old device.new head.now chain.now) }
    ensures no_failure { OnOk result (HasNotFailed device.old device.new) }
    ensures failed { OnErr result (HasFailed device.old device.new) }
{
    behind.add(device, head)?;
    for i in 0..chain.segments() {
        behind.add(device, chain.part(i))?;
    }
    Ok(())
}

/// Writes everything that is waiting, and flushes the device.
fn flush_all<W: Write>(behind: &mut WriteBuffer, device: &mut Counted<W>) -> Result<(), Failed>
    ensures exact { OnOk result (SendsAll W.contents behind.old device.old device.new) }
    ensures kept { OnOk result (KeepsUnsent W.contents behind.old device.old behind.new device.new) }
    ensures begins { OnErr result (BeginsToSend W.contents behind.old device.old device.new) }
    ensures no_failure { OnOk result (HasNotFailed device.old device.new) }
    ensures failed { OnErr result (HasFailed device.old device.new) }
{
    behind.write_out(device)?;
    device.flush()
}
