//! The calls in use: a capture copied to another device, except for the records that a chain has no space for.
ghost use Rattle.std.specs.Prelude.{◌≡◌, Some, IfOk, IfErr, OnOk, OnErr};
ghost use Rattle.mbuf.specs.Chain.{HasSameSegments};
ghost use Rattle.pcapio.specs.Answer.{OnAll, OnCut};
ghost use Rattle.pcapio.specs.Copy.{IfEnded, IfEndless, CopiesOne, BeginsOne, Copies, BeginsToCopy, IsEndless};
ghost use Rattle.pcapio.specs.Copy.{CopiesPart, CopiesOut, CopiesCapture, BeginsCapture, IsEndlessCapture};
ghost use Rattle.pcapio.specs.Copy.{WhyOneStopped, WhyStopped, WhyNotCopied};
ghost use Rattle.pcapio.specs.Counted.{HasNotFailed};
ghost use Rattle.pcapio.specs.Reader.{pending_of, source_of, state_of, IsReading, IsSameFile, EndsTorn};
ghost use Rattle.pcapio.specs.ReaderState.{after_bytes};
ghost use Rattle.pcapio.specs.Writer.{sink_of, IsWell};

use crate::counted::Counted;
use crate::reader::Reader;
use crate::record::Head;
use crate::writer::Writer;
use mbuf::Chain;
use pcapio_laws::CapFault;
use std::alloc::Global;
use std::io::{Read, Write};

/// Copies the capture on a device to another device, and returns whether it ended inside a record; `None` if it has
/// 2^64 - 1 records or more. Records with more bytes than `chain` has space for are left out; the chain keeps its
/// segments and links. Takes memory for two buffers of 64 KiB, before anything is written, and for nothing else.
///
/// Both devices are handed back. Errors: 1 `NotPcap`, 2 `BadVersion`, 3 `BadLink`, 4 `BadRecord`, 5 `Read`, 6 `Write`,
/// 7 `Memory`; what was written is then a prefix of the copy.
pub fn copy_capture<R: Read, W: Write>(
    alloc: Global,
    from: Counted<R>,
    to: Counted<W>,
    chain: &mut Chain,
) -> (Counted<R>, Counted<W>, Result<Option<bool>, CapFault>)
    ensures copied { IfEnded result.2 (CopiesCapture R.remaining W.contents chain.old from to result.1) }
    ensures endless { IfEndless result.2 (IsEndlessCapture R.remaining from) }
    ensures begins { OnErr result.2 (BeginsCapture R.remaining W.contents chain.old from to result.1) }
    ensures cause { IfErr result.2 (WhyNotCopied R.remaining from result.0 to result.1) }
    ensures kept { HasSameSegments chain.new chain.old }
{
    let mut reader = match Reader::open(alloc, from) {
        Ok(reader) => reader,
        Err((from, fault)) => return (from, to, Err(fault)),
    };
    let mut writer = match Writer::open(alloc, to, reader.resolution()) {
        Ok(writer) => writer,
        Err((to, fault)) => return (reader.into_inner(), to, Err(fault)),
    };
    let copied = copy_and_flush(&mut reader, &mut writer, chain);
    (reader.into_inner(), writer.into_inner(), copied)
}

/// Copies the remaining records, and writes all of them to the device.
fn copy_and_flush<R: Read, W: Write>(
    reader: &mut Reader<R>,
    writer: &mut Writer<W>,
    chain: &mut Chain,
) -> Result<Option<bool>, CapFault>
    requires reading { IsReading reader.old }
    requires no_failure { IsWell writer.old }
    ensures copied { IfEnded result (CopiesOut R.remaining W.contents chain.old reader.old writer.old writer.new) }
    ensures endless { IfEndless result (IsEndless R.remaining reader.old) }
    ensures begins { OnErr result (BeginsToCopy R.remaining W.contents chain.old reader.old writer.old writer.new) }
    ensures cause { IfErr result (WhyStopped R.remaining reader.old reader.new writer.old writer.new) }
    ensures kept { HasSameSegments chain.new chain.old }
{
    let copied = copy_records(reader, writer, chain)?;
    writer.flush()?;
    Ok(copied)
}

/// Puts each remaining record that the chain has space for, and returns whether the file ended inside one; `None` if
/// there are 2^64 - 1 or more. Requires: neither the reader nor the writer is at a fault, and the reader isn't at the
/// end. Takes no memory.
///
/// Errors: those of `Reader::head`, `Reader::body` and `Writer::put`.
pub fn copy_records<R: Read, W: Write>(
    reader: &mut Reader<R>,
    writer: &mut Writer<W>,
    chain: &mut Chain,
) -> Result<Option<bool>, CapFault>
    requires reading { IsReading reader.old }
    requires no_failure { IsWell writer.old }
    ensures copied { IfEnded result (Copies R.remaining W.contents chain.old reader.old writer.old writer.new) }
    ensures endless { IfEndless result (IsEndless R.remaining reader.old) }
    ensures begins { OnErr result (BeginsToCopy R.remaining W.contents chain.old reader.old writer.old writer.new) }
    ensures cause { IfErr result (WhyStopped R.remaining reader.old reader.new writer.old writer.new) }
    ensures kept { HasSameSegments chain.new chain.old }
    ensures part { OnOk result (CopiesPart R.remaining W.contents chain.old reader.old writer.old writer.new) }
    ensures read { OnOk result (HasNotFailed (source_of reader.old) (source_of reader.new)) }
    ensures written { OnOk result (HasNotFailed (sink_of writer.old) (sink_of writer.new)) }
    ensures goes_on { OnOk result (IsWell writer.new) }
{
    // one record per turn: if there are 2^64 - 1 or more, the result is `None`
    for _count in 0..u64::MAX {
        let Some(head) = reader.head()? else {
            return Ok(Some(reader.torn()));
        };
        let all = copy_record(reader, writer, chain, head)?;
        if !all {
            return Ok(Some(true));
        }
    }
    Ok(None)
}

/// Puts the pending record, or skips it if the chain has no space for it. `false`: the file ended inside it.
fn copy_record<R: Read, W: Write>(
    reader: &mut Reader<R>,
    writer: &mut Writer<W>,
    chain: &mut Chain,
    head: Head,
) -> Result<bool, CapFault>
    requires pending { pending_of reader.old ≡ Some head }
    requires no_failure { IsWell writer.old }
    ensures ok { OnAll result (CopiesOne R.remaining W.contents chain.old reader.old reader.new writer.old writer.new) }
    ensures torn { OnCut result (EndsTorn R.remaining reader.old) }
    ensures kept { OnCut result (writer.new ≡ writer.old) }
    ensures begins { OnErr result (BeginsOne R.remaining W.contents chain.old reader.old writer.old writer.new) }
    ensures file { IsSameFile reader.old reader.new }
    ensures state { IfOk result (λ all. state_of reader.new ≡ after_bytes all) }
    ensures goes_on { OnOk result (IsWell writer.new) }
    ensures space { HasSameSegments chain.new chain.old }
    ensures read { OnOk result (HasNotFailed (source_of reader.old) (source_of reader.new)) }
    ensures written { OnOk result (HasNotFailed (sink_of writer.old) (sink_of writer.new)) }
    ensures cause { IfErr result (WhyOneStopped reader.old reader.new writer.old writer.new) }
{
    if head.captured as usize > chain.space() {
        let all = reader.skip()?;
        return Ok(all);
    }
    let all = reader.body(chain)?;
    if all {
        writer.put(head.seconds, head.fraction, head.wire, chain)?;
    }
    Ok(all)
}
