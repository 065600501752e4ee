//! A record whose bytes are all in the reader's buffer: it is judged and rewritten there, and written from there.
ghost use Rattle.std.specs.Prelude.{◌≡◌, ◌≤◌, ◌<◌, ◌*◌, ◌+◌, ◌-◌, ◌^◌, None, length, vec_len};
ghost use Rattle.counters.specs.Tally.{records_of};
ghost use Rattle.ipv4.specs.Prefetched.{AreLookedUp};
ghost use Rattle.pcapio.specs.Counted.{HasNotFailed};
ghost use Rattle.pcapio.specs.Lent.{IsBuffered};
ghost use Rattle.pcapio.specs.Reader.{state_of, source_of};
ghost use Rattle.pcapio.specs.declared.reader_state.ReaderState.TheVariants.{Between, Pending};
ghost use Rattle.run_one.specs.Begun.{GoesBy};
ghost use Rattle.run_one.specs.SoFar.{HasRead};
ghost use Rattle.run_one.specs.Turns.{IsVacant};

use crate::one::lookahead::Lookahead;
use crate::records::read_state::ReadState;
use crate::sink::Sink;
use ipv4::forward_frame;
use pcapio::{Head, Reader};
use settings::Settings;
use stages_laws::Run;
use std::io::{Read, Write};

/// Takes the record that was looked at to its port. Requires: all its bytes are in the reader's buffer; no port has
/// failed.
pub(crate) fn forward_lent<J: Run, R: Read, W: Write + Drop>(
    reader: &mut Reader<R>,
    sink: &mut Sink<J, W>,
    progress: &mut ReadState,
    head: Head,
    settings: &Settings,
    ahead: &mut Lookahead,
)
    // The record, whose head was looked at.
    requires pending { state_of reader.old ≡ Pending head }
    requires buffered { IsBuffered reader.old }
    requires fits { head.captured ≤ 64 * J.room }

    // The records before it.
    requires read { HasRead R.remaining J.input J.room (length J.before) reader.old progress.old }
    requires bounded { progress.old.count + records_of progress.old.oversize < 2 ^ 64 - 1 }

    // The settings, and what was looked up by them.
    requires settings { GoesBy settings.now J.room J.forwarding (length J.before) }
    requires looked_up { AreLookedUp settings.now.table.members ahead.old.lookups }

    // The sink, which waits for this record.
    requires turn { sink.old.window.next ≡ progress.old.count }
    requires vacant { IsVacant sink.old.window }
    requires no_failure { sink.old.outputs.failed ≡ None }

    // One more record was read.
    ensures read { HasRead R.remaining J.input J.room (length J.before) reader.new progress.new }
    ensures between { state_of reader.new ≡ Between }
    ensures count { progress.new.count ≡ progress.old.count + 1 }
    ensures oversize { progress.new.oversize ≡ progress.old.oversize }
    ensures worked { HasNotFailed (source_of reader.old) (source_of reader.new) }

    // It has left the sink.
    ensures turn { sink.new.window.next ≡ progress.new.count }
    ensures vacant { IsVacant sink.new.window }
    ensures length { vec_len sink.new.outputs.writers ≡ vec_len sink.old.outputs.writers }
    ensures looked_up { AreLookedUp settings.now.table.members ahead.new.lookups }
{
    let order = reader.order();
    let earlier = ahead.next(reader.buffered(), order, &settings.table);
    let frame = reader.lend();
    let wire = head.wire as usize;
    let verdict = forward_frame(frame, &settings.table, &settings.ports, wire, earlier);
    sink.forward_frame(progress.count, head, verdict, frame);
    progress.count += 1;
}
