//! The bytes of the pending record: read into a chain, skipped, or read into a vector.
ghost use Rattle.std.specs.Prelude.{◌≡◌, ◌≤◌, length, ℕ, List, IfOk, IfErr, OnOk, OnErr, OnSome, IfSome, IfNone};
ghost use Rattle.std.specs.Prelude.{IsSome, Some, None, Bool, true};
ghost use Rattle.std.specs.Option.{ForSome};
ghost use Rattle.mbuf.specs.Chain.{bytes_of, fresh_of, HasSameSegments, space_of};
ghost use Rattle.pcapio.specs.Answer.{OnAll, OnCut};
ghost use Rattle.pcapio.specs.Counted.{HasNotFailed};
ghost use Rattle.pcapio.specs.Reader.{rest, state_of, source_of, pending_of, IsReading, IsSameFile, Fails};
ghost use Rattle.pcapio.specs.Reader.{Takes, TakesBody, TakesPending, LeavesTorn, EndsTorn, FindsEnd};
ghost use Rattle.pcapio.specs.Reader.{WhyNoRecord, WhyNoBytes};
ghost use Rattle.pcapio.specs.Record.{view};
ghost use Rattle.pcapio.specs.ReaderState.{after_bytes};
ghost use Rattle.pcapio.specs.declared.reader_state.ReaderState.TheVariants.{Between, Ended, Faulted};

use crate::counted::Failed;
use crate::reader::Reader;
use crate::reader_state::ReaderState;
use crate::record::{HEAD, Head, Record};
use crate::stream::read_body;
use mbuf::Chain;
use pcapio_laws::CapFault;
use std::alloc::{AllocError, Global};
use std::io::Read;

impl<R: Read> Reader<R> {
    /// Skips the bytes of the pending record. `false`: the file ended inside them. Requires: a head is pending. Takes
    /// no memory.
    ///
    /// Errors: 5 `Read` if the device failed.
    pub fn skip(&mut self) -> Result<bool, CapFault>
        requires pending { IsSome (pending_of self.old) }
        ensures file { IsSameFile self.old self.new }
        ensures record { OnAll result ((bytes : List ℕ) × TakesBody R.remaining self.old self.new bytes) }
        ensures torn { OnCut result (EndsTorn R.remaining self.old) }
        ensures state { IfOk result (λ all. state_of self.new ≡ after_bytes all) }
        ensures no_failure { OnOk result (HasNotFailed (source_of self.old) (source_of self.new)) }
        ensures fault { IfErr result (λ fault. fault ≡ CapFault.Read) }
        ensures given_up { OnErr result (state_of self.new ≡ Faulted CapFault.Read) }
        ensures failed { OnErr result (Fails self.old self.new) }
    {
        let head = self.take_head();
        match self.ahead.skip(&mut self.device, head.captured as usize) {
            Ok(all) => Ok(self.pass(all)),
            Err(Failed) => Err(self.give_up(CapFault::Read)),
        }
    }

    /// Reads the bytes of the pending record into the segments of a chain, from the first on. `false`: the file ended
    /// inside them, and the chain is fresh. Requires: a head is pending, and the chain has space for its bytes. The
    /// chain's previous bytes are overwritten. Takes no memory.
    ///
    /// Errors: 5 `Read` if the device failed; the chain is then fresh.
    pub fn body(&mut self, chain: &mut Chain) -> Result<bool, CapFault>
        requires pending { IsSome (pending_of self.old) }
        requires space { ForSome (pending_of self.old) (λ head. head.captured ≤ space_of chain.old) }
        ensures file { IsSameFile self.old self.new }
        ensures record { OnAll result (TakesBody R.remaining self.old self.new (bytes_of chain.new)) }
        ensures torn { OnCut result (EndsTorn R.remaining self.old) }
        ensures state { IfOk result (λ all. state_of self.new ≡ after_bytes all) }
        ensures no_failure { OnOk result (HasNotFailed (source_of self.old) (source_of self.new)) }
        ensures fault { IfErr result (λ fault. fault ≡ CapFault.Read) }
        ensures given_up { OnErr result (state_of self.new ≡ Faulted CapFault.Read) }
        ensures failed { OnErr result (Fails self.old self.new) }

        // The chain.
        ensures kept { HasSameSegments chain.new chain.old }
        ensures fresh { OnCut result (chain.new ≡ fresh_of chain.old) }
        ensures reset { OnErr result (chain.new ≡ fresh_of chain.old) }
    {
        let head = self.take_head();
        let count = head.captured as usize;
        match read_body(&mut self.ahead, &mut self.device, chain, count) {
            Ok(all) => Ok(self.pass(all)),
            Err(Failed) => Err(self.give_up(CapFault::Read)),
        }
    }

    /// The next record with its bytes, if there is one; the pending one, if a head is pending. Takes memory for the
    /// bytes.
    ///
    /// Errors: 4 `BadRecord` and 5 `Read` as for `head`, and 7 `Memory`.
    pub fn next(&mut self, alloc: Global) -> Result<Option<Record>, CapFault>
        ensures file { IsSameFile self.old self.new }
        ensures record { IfOk result (λ found. IfSome found (λ it. Takes R.remaining self.old self.new (view it))) }
        ensures between { IfOk result (λ found. OnSome found (state_of self.new ≡ Between)) }
        ensures end { IsReading self.old → IfOk result (λ it. IfNone it (FindsEnd R.remaining self.old self.new)) }
        ensures ended { (torn : Bool) → state_of self.old ≡ Ended torn → (result ≡ Ok None) × (self.new ≡ self.old) }
        ensures no_failure { OnOk result (HasNotFailed (source_of self.old) (source_of self.new)) }
        ensures fault { IfErr result (λ fault. state_of self.new ≡ Faulted fault) }
        ensures cause { IsReading self.old → IfErr result (WhyNoRecord R.remaining self.old self.new) }
        ensures stays { (f : CapFault) → state_of self.old ≡ Faulted f → (result ≡ Err f) × (self.new ≡ self.old) }
    {
        let Some(_) = self.head()? else {
            return Ok(None);
        };
        // Named, since the proof of `record` speaks of it.
        let found = self.read_record(alloc)?;
        Ok(found)
    }

    /// The pending record with its bytes.
    fn read_record(&mut self, alloc: Global) -> Result<Option<Record>, CapFault>
        requires pending { IsSome (pending_of self.old) }
        ensures file { IsSameFile self.old self.new }
        ensures record { IfOk result (λ found. IfSome found (λ it. Takes R.remaining self.old self.new (view it))) }
        ensures between { IfOk result (λ found. OnSome found (state_of self.new ≡ Between)) }
        ensures torn { IfOk result (λ it. IfNone it (EndsTorn R.remaining self.old)) }
        ensures ended { IfOk result (λ found. IfNone found (state_of self.new ≡ Ended true)) }
        ensures no_failure { OnOk result (HasNotFailed (source_of self.old) (source_of self.new)) }
        ensures fault { IfErr result (λ fault. state_of self.new ≡ Faulted fault) }
        ensures cause { IfErr result (WhyNoBytes self.old self.new) }
    {
        let head = self.take_head();
        let Ok(mut bytes) = zeros(alloc, head.captured as usize) else {
            return Err(self.give_up(CapFault::Memory));
        };
        match self.ahead.fill(&mut self.device, bytes.as_mut_slice()) {
            Err(Failed) => Err(self.give_up(CapFault::Read)),
            Ok(false) => {
                self.state = ReaderState::Ended(true);
                Ok(None)
            }
            Ok(true) => Ok(Some(Record {
                seconds: head.seconds,
                fraction: head.fraction,
                wire: head.wire,
                bytes,
            })),
        }
    }

    /// Consumes the header of the pending record. What it ensures is what the next bytes that are read will mean.
    fn take_head(&mut self) -> Head
        requires pending { IsSome (pending_of self.old) }
        ensures pending { pending_of self.old ≡ Some result }
        ensures takes { TakesPending R.remaining self.old self.new result }
        ensures torn { LeavesTorn R.remaining self.old self.new result }
        ensures device { source_of self.new ≡ source_of self.old }
        ensures state { state_of self.new ≡ Between }
        ensures file { IsSameFile self.old self.new }
    {
        let ReaderState::Pending(head) = self.state else {
            unreachable!();
        };
        self.state = ReaderState::Between;
        self.ahead.consume(HEAD);
        head
    }

    /// Moves on after the bytes of a record were read, all of them or those that there are.
    fn pass(&mut self, all: bool) -> bool
        ensures all { result ≡ all }
        ensures state { state_of self.new ≡ after_bytes all }
        ensures file { IsSameFile self.old self.new }
        ensures device { source_of self.new ≡ source_of self.old }
        ensures rest { rest R.remaining self.new ≡ rest R.remaining self.old }
    {
        self.state = if all {
            ReaderState::Between
        } else {
            ReaderState::Ended(true)
        };
        all
    }
}

/// `count` bytes, all 0.
fn zeros(alloc: Global, count: usize) -> Result<Vec<u8>, AllocError>
    ensures { IfOk result (λ bytes. length bytes.items ≡ count) }
{
    let mut bytes = Vec::with_capacity(alloc, count)?;
    bytes.resize(count, 0)?;
    Ok(bytes)
}
