//! The reader of a capture. It returns the records in order, and after a fault only that fault.
ghost use Rattle.std.specs.Prelude.{◌≡◌, ◌<◌, ◌≤◌, IfOk, IfErr, OnOk, IfSome, IfNone};
ghost use Rattle.std.specs.Prelude.{Some, None, Option, Bool, true};
ghost use Rattle.std.specs.Option.{ForSome};
ghost use Rattle.std.specs.Io.KnownBytes.{Keeps};
ghost use Rattle.pcapio.specs.ReadBuffer.{items};
ghost use Rattle.pcapio.specs.Counted.{to_come, HasFailed, HasNotFailed};
ghost use Rattle.pcapio.specs.Record.{IsHead};
ghost use Rattle.pcapio.specs.ReaderState.{head_of};

mod bodies;
mod lent;

use crate::counted::{Counted, Failed};
use crate::header::{FILE_HEADER, header_in};
use crate::read_buffer::ReadBuffer;
use crate::reader_state::ReaderState;
use crate::record::{HEAD, Head, head_in};
use pcapio_laws::{ByteOrder, CapFault, Resolution};
use std::alloc::Global;
use std::io::Read;

/// A reader of a capture. After a fault it returns that fault again and doesn't touch its device.
#[derive(Debug, Drop)]
pub struct Reader<R> {
    device: Counted<R>,
    ahead: ReadBuffer,
    order: ByteOrder,
    resolution: Resolution,
    state: ReaderState,
    ghost pending: { ForSome (head_of state) (λ head. IsHead order (items ahead) head) },
}

impl<R: Read> Reader<R> {
    ghost use Rattle.pcapio.specs.Reader.{rest, state_of, order_of, resolution_of, source_of, pending_of, IsReading};
    ghost use Rattle.pcapio.specs.Reader.{IsSameFile, Refuses, HasHeaderOf, IsBehindHeader, BeginsWithHead};
    ghost use Rattle.pcapio.specs.Reader.{FindsEnd};
    ghost use Rattle.pcapio.specs.Reader.{WhyNoHead};
    ghost use Rattle.pcapio.specs.ReaderState.{torn_of};
    ghost use Rattle.pcapio.specs.declared.reader_state.ReaderState.TheVariants.{Between, Pending, Ended, Faulted};

    /// A reader of the capture on the device. All memory that `head`, `body` and `skip` need is taken here: a buffer of
    /// 64 KiB.
    ///
    /// Errors, with the device handed back: 7 `Memory`, with the device untouched; 5 `Read`; 1 `NotPcap`, 2
    /// `BadVersion`, 3 `BadLink`, tested in this order.
    pub fn open(alloc: Global, mut device: Counted<R>) -> Result<Reader<R>, (Counted<R>, CapFault)>
        ensures header { IfOk result (HasHeaderOf R.remaining device) }
        ensures rest { IfOk result (IsBehindHeader R.remaining device) }
        ensures begins { IfOk result (λ opened. state_of opened ≡ Between) }
        ensures no_failure { IfOk result (λ opened. HasNotFailed device (source_of opened)) }
        ensures cause { IfErr result (λ back. Refuses (to_come R.remaining device) back.1 (HasFailed device back.0)) }
        ensures untouched { IfErr result (λ back. back.1 ≡ CapFault.Memory → back.0 ≡ device) }
    {
        let Ok(mut ahead) = ReadBuffer::new(alloc) else {
            return Err((device, CapFault::Memory));
        };
        match ahead.gather(&mut device, FILE_HEADER) {
            Err(Failed) => Err((device, CapFault::Read)),
            Ok(false) => Err((device, CapFault::NotPcap)),
            Ok(true) => match header_in(ahead.as_slice()) {
                Err(fault) => Err((device, fault)),
                Ok((order, resolution)) => {
                    ahead.consume(FILE_HEADER);
                    Ok(Reader {
                        device,
                        ahead,
                        order,
                        resolution,
                        state: ReaderState::Between,
                    })
                }
            },
        }
    }

    /// The byte order of the file.
    pub fn order(&self) -> ByteOrder
        ensures { result ≡ order_of self.now }
    {
        self.order
    }

    /// The resolution of the file's time stamps.
    pub fn resolution(&self) -> Resolution
        ensures { result ≡ resolution_of self.now }
    {
        self.resolution
    }

    /// Whether the file was found to end inside a record.
    pub fn torn(&self) -> bool
        ensures { result ≡ torn_of (state_of self.now) }
    {
        match self.state {
            ReaderState::Ended(torn) => torn,
            _ => false,
        }
    }

    /// The head that was returned, whose bytes are still to come.
    pub fn pending(&self) -> Option<Head>
        ensures { result ≡ pending_of self.now }
    {
        match self.state {
            ReaderState::Pending(head) => Some(head),
            _ => None,
        }
    }

    /// The device. What was read ahead is lost.
    pub fn into_inner(self) -> Counted<R>
        ensures { result ≡ source_of self }
    {
        self.device
    }

    /// The head of the next record, if there is one; the same again while it is pending. Takes no memory.
    ///
    /// Errors: 4 `BadRecord` if the record's header is whole and has a captured length above the maximum, 5 `Read` if
    /// the device failed.
    pub fn head(&mut self) -> Result<Option<Head>, CapFault>
        ensures file { IsSameFile self.old self.new }
        ensures rest { Keeps (rest R.remaining self.old) (rest R.remaining self.new) }

        // If there is a record.
        ensures pending { IfOk result (λ found. IfSome found (λ head. state_of self.new ≡ Pending head)) }
        ensures head { IfOk result (λ found. IfSome found (BeginsWithHead R.remaining self.old)) }
        ensures small { IfOk result (λ found. IfSome found (λ head. head.captured ≤ 262144)) }

        // If there is none.
        ensures end { IsReading self.old → IfOk result (λ it. IfNone it (FindsEnd R.remaining self.old self.new)) }
        ensures ended { (torn : Bool) → state_of self.old ≡ Ended torn → (result ≡ Ok None) × (self.new ≡ self.old) }

        // Faults.
        ensures no_failure { OnOk result (HasNotFailed (source_of self.old) (source_of self.new)) }
        ensures fault { IfErr result (λ fault. state_of self.new ≡ Faulted fault) }
        ensures cause { IsReading self.old → IfErr result (WhyNoHead R.remaining self.old self.new) }
        ensures stays { (f : CapFault) → state_of self.old ≡ Faulted f → (result ≡ Err f) × (self.new ≡ self.old) }
    {
        match self.state {
            ReaderState::Pending(head) => Ok(Some(head)),
            ReaderState::Ended(_) => Ok(None),
            ReaderState::Faulted(fault) => Err(fault),
            ReaderState::Between => self.read_head(),
        }
    }

    /// The head of the next record, if there is one, while none is pending.
    fn read_head(&mut self) -> Result<Option<Head>, CapFault>
        requires between { state_of self.old ≡ Between }
        ensures file { IsSameFile self.old self.new }
        ensures rest { Keeps (rest R.remaining self.old) (rest R.remaining self.new) }
        ensures pending { IfOk result (λ found. IfSome found (λ head. state_of self.new ≡ Pending head)) }
        ensures head { IfOk result (λ found. IfSome found (BeginsWithHead R.remaining self.old)) }
        ensures small { IfOk result (λ found. IfSome found (λ head. head.captured ≤ 262144)) }
        ensures end { IfOk result (λ it. IfNone it (FindsEnd R.remaining self.old self.new)) }
        ensures no_failure { OnOk result (HasNotFailed (source_of self.old) (source_of self.new)) }
        ensures fault { IfErr result (λ fault. state_of self.new ≡ Faulted fault) }
        ensures cause { IfErr result (WhyNoHead R.remaining self.old self.new) }
    {
        match self.ahead.gather(&mut self.device, HEAD) {
            Err(Failed) => Err(self.give_up(CapFault::Read)),
            Ok(false) => {
                self.state = ReaderState::Ended(self.ahead.len() > 0);
                Ok(None)
            }
            Ok(true) => match head_in(self.order, self.ahead.as_slice()) {
                None => Err(self.give_up(CapFault::BadRecord)),
                Some(head) => {
                    self.state = ReaderState::Pending(head);
                    Ok(Some(head))
                }
            },
        }
    }

    fn give_up(&mut self, fault: CapFault) -> CapFault
        ensures fault { result ≡ fault }
        ensures state { state_of self.new ≡ Faulted fault }
        ensures file { IsSameFile self.old self.new }
        ensures device { source_of self.new ≡ source_of self.old }
        ensures rest { rest R.remaining self.new ≡ rest R.remaining self.old }
    {
        self.state = ReaderState::Faulted(fault);
        fault
    }
}
