//! The records of a run's input, one after another: read into a chain, or skipped if they are oversize.
ghost use Rattle.std.specs.Prelude.{◌≡◌, ◌≤◌, ◌<◌, ◌*◌, ◌+◌, ◌-◌, ◌^◌, length, None, Ok, IfOk, IfErr, IfSome, OnOk, OnSome, true};
ghost use Rattle.counters.specs.Tally.{records_of};
ghost use Rattle.mbuf.specs.Chain.{space_of, HasSameSegments};
ghost use Rattle.pcapio.specs.Counted.{HasNotFailed};
ghost use Rattle.pcapio.specs.Reader.{state_of, source_of, Fails, IsSameFile};
ghost use Rattle.pcapio.specs.declared.reader_state.ReaderState.TheVariants.{Between, Pending};
ghost use Rattle.run_one.specs.Faults.{fault_of_input};
ghost use Rattle.run_one.specs.Reading.{WhyNone};
ghost use Rattle.run_one.specs.SoFar.{HasRead, IsAhead, IsAll, Looks};
ghost use Rattle.run_one.specs.Turns.{WhyStopped};

pub(crate) mod input_totals;
pub(crate) mod next_record;
pub(crate) mod read_state;

use crate::fault::RunFault;
use crate::packet::Unjudged;
use crate::records::next_record::NextRecord;
use crate::records::read_state::ReadState;
use mbuf::Chain;
use pcapio::{CapFault, Head, Reader};
use stages_laws::Run;
use std::io::Read;
use std::marker::PhantomData;

/// The maximum number of segments of a packet, as a `usize`.
pub(crate) const MAX_SEGMENTS: usize = mbuf::MAX_SEGMENTS as usize;

/// The fault of a run whose input had this fault.
pub fn input_fault(fault: CapFault) -> RunFault
    ensures { result ≡ fault_of_input fault }
{
    match fault {
        CapFault::Read => RunFault::Read,
        CapFault::Memory => RunFault::Memory,
        fault => RunFault::Capture(fault),
    }
}

/// What comes next: a record with too many bytes is skipped. Requires: the reader is before a record.
fn ahead<R: Read>(reader: &mut Reader<R>, room: usize) -> Result<NextRecord, RunFault>
    requires between { state_of reader.old ≡ Between }
    requires at_most { room ≤ 65536 }
    ensures file { IsSameFile reader.old reader.new }
    ensures found { IfOk result (IsAhead R.remaining room reader.old reader.new) }
    ensures no_failure { OnOk result (HasNotFailed (source_of reader.old) (source_of reader.new)) }
    ensures cause { IfErr result (WhyNone R.remaining reader.old reader.new) }
{
    let head = match reader.head() {
        Ok(Some(head)) => head,
        Ok(None) => return Ok(NextRecord::Ended(reader.torn())),
        Err(fault) => return Err(input_fault(fault)),
    };
    if head.captured as usize <= MAX_SEGMENTS * room {
        return Ok(NextRecord::Record(head));
    }
    match reader.skip() {
        Ok(true) => Ok(NextRecord::Oversize),
        Ok(false) => Ok(NextRecord::Ended(true)),
        Err(_) => Err(RunFault::Read),
    }
}

/// Looks at what comes next: the head of a record, which is to be read then, or an oversize record, which is counted
/// and skipped, or the end. Requires: the reader is before a record.
pub fn look<J: Run, R: Read>(
    reader: &mut Reader<R>,
    progress: &mut ReadState,
    room: usize,
) -> Result<NextRecord, RunFault>
    requires between { state_of reader.old ≡ Between }
    requires room { room ≡ J.room }
    requires at_most { room ≤ 65536 }
    requires read { HasRead R.remaining J.input J.room (length J.before) reader.old progress.old }
    requires bounded { progress.old.count + records_of progress.old.oversize < 2 ^ 64 - 1 }
    ensures exact { IfOk result
        (Looks R.remaining J.input J.room (length J.before) reader.new progress.old progress.new) }
    ensures no_failure { OnOk result (HasNotFailed (source_of reader.old) (source_of reader.new)) }
    ensures cause { IfErr result (WhyStopped J.input reader.old reader.new None) }
{
    let found = match ahead(reader, room) {
        Ok(found) => found,
        Err(fault) => return Err(fault),
    };
    // an arm for each, so that the proof has each case separately
    match found {
        NextRecord::Oversize => progress.oversize.add_oversize(),
        NextRecord::Record(_) => (),
        NextRecord::Ended(_) => (),
    }
    Ok(found)
}

/// Reads the record that was looked at into a chain, under its number. `None` if the input ends inside it. Requires:
/// the chain has space for it.
// inlined, so that the packet isn't returned through memory: a profile showed the reader waiting where its fields were
// loaded again
#[inline(always)]
pub fn read_record<J: Run, R: Read>(
    reader: &mut Reader<R>,
    progress: &mut ReadState,
    head: Head,
    mut chain: Chain,
) -> Result<Option<Unjudged<J>>, RunFault>
    requires pending { state_of reader.old ≡ Pending head }
    requires fits { head.captured ≤ 64 * J.room }
    requires space { head.captured ≤ space_of chain }
    requires read { HasRead R.remaining J.input J.room (length J.before) reader.old progress.old }
    requires bounded { progress.old.count + records_of progress.old.oversize < 2 ^ 64 - 1 }
    ensures torn { OnOk result (result ≡ Ok None
        → IsAll J.input J.room (length J.before) progress.new true × (progress.new ≡ progress.old)) }
    ensures packet { IfOk result (λ found. IfSome found (λ packet. (packet.seq ≡ progress.old.count)
        × HasSameSegments packet.chain chain)) }
    ensures read { IfOk result (λ found. OnSome found
        (HasRead R.remaining J.input J.room (length J.before) reader.new progress.new)) }
    ensures between { IfOk result (λ found. OnSome found (state_of reader.new ≡ Between)) }
    ensures count { IfOk result (λ found. OnSome found ((progress.new.count ≡ progress.old.count + 1)
        × (progress.new.oversize ≡ progress.old.oversize))) }
    ensures no_failure { OnOk result (HasNotFailed (source_of reader.old) (source_of reader.new)) }
    ensures cause { IfErr result (λ fault. (fault ≡ RunFault.Read) × Fails reader.old reader.new) }
{
    match reader.body(&mut chain) {
        Ok(true) => (),
        Ok(false) => return Ok(None),
        Err(_) => return Err(RunFault::Read),
    }
    let packet = Unjudged {
        seq: progress.count,
        seconds: head.seconds,
        fraction: head.fraction,
        wire: head.wire,
        chain,
        of: PhantomData,
    };
    progress.count += 1;
    Ok(Some(packet))
}
