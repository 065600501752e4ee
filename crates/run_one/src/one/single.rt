//! The run by one thread: each record is read, judged, and passed through the sink, in the order of the input. A record
//! that is in the reader's buffer as a whole stays there meanwhile; any other is read into a chain.
ghost use Rattle.std.specs.Prelude.{◌≡◌, ◌≤◌, ◌*◌, min, None, IfOk, IfErr, OnOk, length, vec_len};
ghost use Rattle.mbuf.specs.Chain.{space_of};
ghost use Rattle.pcapio.specs.Counted.{HasNotFailed};
ghost use Rattle.pcapio.specs.Reader.{source_of};
ghost use Rattle.run_one.specs.Begun.{GoesBy, HasInput};
ghost use Rattle.run_one.specs.Turns.{IsVacant, WhyStopped};

use crate::fault::RunFault;
use crate::one::lent::forward_lent;
use crate::one::lookahead::Lookahead;
use crate::one::record_chain::RecordChains;
use crate::records::input_totals::InputTotals;
use crate::records::next_record::NextRecord;
use crate::records::read_state::ReadState;
use crate::records::{look, read_record};
use crate::sink::Sink;
use pcapio::Reader;
use settings::Settings;
use stages_laws::Run;
use std::io::{Read, Write};

/// Takes each record of the input to the ports. Requires: reader and sink are before the first one; the long chain has
/// space for each record that isn't oversize.
pub(crate) fn forward_all<J: Run, R: Read, W: Write + Drop>(
    reader: &mut Reader<R>,
    sink: &mut Sink<J, W>,
    mut chains: RecordChains,
    settings: &Settings,
) -> Result<InputTotals<J>, RunFault>
    requires input { HasInput R.remaining reader.old J.input J.read_failures }
    requires settings { GoesBy settings.now J.room J.forwarding (length J.before) }
    requires space { min (64 * settings.now.room) 262144 ≤ space_of chains.long }

    // The sink.
    requires first { sink.old.window.next ≡ 0 }
    requires vacant { IsVacant sink.old.window }
    requires no_failure { sink.old.outputs.failed ≡ None }

    // The sink has as many records as were read, unless there is a fault.
    ensures length { vec_len sink.new.outputs.writers ≡ vec_len sink.old.outputs.writers }
    ensures turn { IfOk result (λ totals. sink.new.window.next ≡ totals.count) }
    ensures no_failure { OnOk result (HasNotFailed (source_of reader.old) (source_of reader.new)) }
    ensures cause { IfErr result (WhyStopped J.input reader.old reader.new sink.new.outputs.failed) }
{
    let room = settings.room as usize;
    let mut progress = ReadState::new(settings.ports.sources.len());
    let mut ahead = Lookahead::new(&settings.table);
    // one record per turn: the result for an input with 2^64 - 1 records or more is `Window`
    for _turn in 0..u64::MAX {
        let head = match look::<J, R>(reader, &mut progress, room) {
            Ok(NextRecord::Record(head)) => head,
            Ok(NextRecord::Oversize) => continue,
            Ok(NextRecord::Ended(torn)) => return Ok(progress.into_totals(torn)),
            Err(fault) => return Err(fault),
        };
        if reader.is_buffered() {
            forward_lent(reader, sink, &mut progress, head, settings, &mut ahead);
            if let Some(port) = sink.outputs.failed {
                return Err(RunFault::Write(port));
            }
            continue;
        }
        let (chain, other, is_long) = chains.choose(head.captured as usize);
        let packet = match read_record::<J, R>(reader, &mut progress, head, chain) {
            Ok(Some(packet)) => packet,
            Ok(None) => return Ok(progress.into_totals(true)),
            Err(fault) => return Err(fault),
        };
        let back = sink.forward(packet.judge(&settings.table, &settings.ports, None));
        chains = RecordChains::rejoin(back, other, is_long);
        if let Some(port) = sink.outputs.failed {
            return Err(RunFault::Write(port));
        }
    }
    Err(RunFault::Window)
}
