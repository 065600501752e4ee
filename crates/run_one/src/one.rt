//! A whole run by one thread: the input is opened, each of its records goes to the ports, and everything is closed.
ghost use Rattle.std.specs.Prelude.{◌≡◌, ◌≤◌, ◌*◌, List, Some, IfErr, IfOk, IfSome, OnOk, map as mapped};
ghost use Rattle.std.specs.Prelude.{length, min, vec_len, vec_capacity};
ghost use Rattle.mbuf.specs.Chain.{space_of};
ghost use Rattle.pcapio.specs.Counted.{failures_of, to_come, told};
ghost use Rattle.stages_laws.specs.Output.{Fate};
ghost use Rattle.run_one.specs.Begun.{AreReady, GoesBy, HasInput};
ghost use Rattle.run_one.specs.Ending.{Sums};
ghost use Rattle.run_one.specs.Failing.{HidesNoPort};
ghost use Rattle.run_one.specs.Ports.{AreOutputs, AreBeginnings};
ghost use Rattle.run_one.specs.Tallies.{fates_of};
ghost use Rattle.run_one.specs.Whole.{IsRun, IsBegun, IsUntouched, WhyStoppedAt, WhyNoSummary};

mod lent;
mod lookahead;
mod record_chain;
mod single;

use crate::fault::RunFault;
use crate::one::record_chain::RecordChains;
use crate::one::single::forward_all;
use crate::ports::Outputs;
use crate::ports::close::into_devices;
use crate::ports::open::open_all;
use crate::records::input_fault;
use crate::sink::Sink;
use crate::summary::{Summary, end};
use pcapio::{Counted, Reader};
use settings::Settings;
use stages_laws::Run;
use std::alloc::Global;
use std::io::{Read, Write};
use std::marker::Brand;

/// Forwards the capture that `reader` has, with these settings, and writes to each port's device a capture of the
/// frames that are sent there, in the order of the input. Requires: a device for each port. Records are streamed:
/// memory is taken at the start, for a short and a long packet and a buffer of 64 KiB for each device, and doesn't grow
/// with the capture.
///
/// All devices are handed back, the ports' in their order. Errors: 1 `Memory`; 3 `Read` and 4 `Write(port)`, if that
/// device failed in this call; 5 `Capture`, if the input is refused; 6 `Window`, if it has 2^64 - 1 records or more. A
/// prefix of its output has then been written to each port's device, and after a port's device failed nothing more was
/// written to any port. Of several faults that with the lowest number is returned; 2 `Thread` and 7 `Worn` never are.
pub fn run_one<R: Read, W: Write + Drop>(
    alloc: Global,
    reader: Counted<R>,
    writers: Vec<Counted<W>>,
    settings: &Settings,
) -> (Counted<R>, Vec<Counted<W>>, Result<Summary, RunFault>)
    requires ports { vec_len writers ≡ vec_len settings.now.ports.sources }
    ensures length { vec_len result.1 ≡ vec_len writers }

    // What was written: all with a summary, a beginning otherwise.
    ensures run { IfOk result.2 (λ summary. IfSome (to_come R.remaining reader) (λ bytes.
        IsRun W.contents settings.now bytes writers.items result.1.items summary)) }
    ensures begun { IfSome (to_come R.remaining reader) (λ bytes.
        IsBegun W.contents settings.now bytes writers.items result.1.items) }
    ensures untouched { IfSome (to_come R.remaining reader) (λ bytes.
        IsUntouched W.contents settings.now bytes writers.items result.1.items) }

    // Faults.
    ensures cause { IfErr result.2 (WhyNoSummary R.remaining reader result.0 writers.items result.1.items) }
    ensures ports { IfErr result.2 (HidesNoPort (mapped failures_of writers.items) result.1.items) }
{
    let reader = match Reader::open(alloc, reader) {
        Ok(reader) => reader,
        Err((device, fault)) => return (device, writers, Err(input_fault(fault))),
    };
    let headroom = settings.headroom as usize;
    let Ok(chains) = RecordChains::new(alloc, headroom, settings.room as usize) else {
        return (reader.into_inner(), writers, Err(RunFault::Memory));
    };
    match open_all(alloc, writers, reader.resolution()) {
        Ok((outputs, spare)) => {
            run_opened::<Brand, R, W>(alloc, reader, outputs, spare, chains, settings)
        }
        Err(writers) => (reader.into_inner(), writers, Err(RunFault::Memory)),
    }
}

/// Takes each record to its port, and ends the run. Nothing has been written yet, and each writer has a file header to
/// write.
fn run_opened<J: Run, R: Read, W: Write + Drop>(
    alloc: Global,
    mut reader: Reader<R>,
    outputs: Outputs<W>,
    spare: Vec<Counted<W>>,
    chains: RecordChains,
    settings: &Settings,
) -> (Counted<R>, Vec<Counted<W>>, Result<Summary, RunFault>)
    requires input { HasInput R.remaining reader J.input J.read_failures }
    requires settings { GoesBy settings.now J.room J.forwarding (length J.before) }
    requires outputs { AreReady W.contents outputs spare.items (vec_capacity spare) J.before J.failures J.resolution }
    requires space { min (64 * settings.now.room) 262144 ≤ space_of chains.long }
    ensures length { vec_len result.1 ≡ length J.before }

    // What was written and counted: all with a summary, a beginning otherwise.
    ensures outputs { OnOk result.2 ((all : List Fate) → fates_of J.forwarding J.room J.input ≡ Some all
        → AreOutputs W.contents J.before J.resolution all result.1.items) }
    ensures begun { (all : List Fate) → fates_of J.forwarding J.room J.input ≡ Some all
        → AreBeginnings W.contents J.before J.resolution all result.1.items }
    ensures counts { IfOk result.2 (Sums J.input (length J.before) J.room J.forwarding) }

    // Faults.
    ensures cause { IfErr result.2 (WhyStoppedAt J.input J.failures reader result.0 result.1.items) }
    ensures ports { IfErr result.2 (HidesNoPort J.failures result.1.items) }
{
    let mut sink: Sink<J, W> = match Sink::new(alloc, 1, outputs) {
        Ok(sink) => sink,
        Err(outputs) => {
            let devices = into_devices(outputs.writers, spare);
            return (reader.into_inner(), devices, Err(RunFault::Memory));
        }
    };
    let totals = forward_all(&mut reader, &mut sink, chains, settings);
    let (devices, told) = end(sink, spare, totals);
    (reader.into_inner(), devices, told)
}
