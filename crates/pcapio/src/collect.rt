//! A reader's remaining records, with their bytes, as a list.
ghost use Rattle.std.specs.Prelude.{IfOk, IfErr, OnOk};
ghost use Rattle.pcapio.specs.Collect.{Collects, CollectsPart, WhyNotAll};
ghost use Rattle.pcapio.specs.Counted.{HasNotFailed};
ghost use Rattle.pcapio.specs.Reader.{source_of, IsReading};

use crate::reader::Reader;
use crate::record::Record;
use pcapio_laws::CapFault;
use std::alloc::Global;
use std::io::Read;

/// Appends each remaining record to the list, and returns whether the file ended inside one. Requires: the reader is
/// neither at a fault nor at the end. Takes memory for the list and for the bytes of each record.
///
/// Errors: 4 `BadRecord`, 5 `Read` and 7 `Memory`, as for `Reader::next`; what was added is then a prefix of the
/// remaining records.
pub fn collect_records<R: Read>(
    alloc: Global,
    reader: &mut Reader<R>,
    list: &mut Vec<Record>,
) -> Result<bool, CapFault>
    requires reading { IsReading reader.old }
    ensures all { IfOk result (Collects R.remaining reader.old list.old.items list.new.items) }
    ensures part { CollectsPart R.remaining reader.old list.old.items list.new.items }
    ensures no_failure { OnOk result (HasNotFailed (source_of reader.old) (source_of reader.new)) }
    ensures cause { IfErr result (WhyNotAll R.remaining reader.old reader.new) }
{
    // one record per turn: no list has room for 2^64 - 1 of them, so the loop never reaches its end
    for _count in 0..u64::MAX {
        let Ok(()) = list.reserve(1) else {
            return Err(CapFault::Memory);
        };
        let Some(record) = reader.next(alloc)? else {
            return Ok(reader.torn());
        };
        let Ok(()) = list.push(record) else {
            unreachable!();
        };
    }
    unreachable!()
}
