//! A run in threads: a reader, workers, and the sink on the calling thread.
ghost use Rattle.std.specs.Prelude.{◌≡◌, ◌⊎◌, ◌<◌, ◌≤◌, List, None, Some, Err, IfErr, IfOk, IfSome, OnOk};
ghost use Rattle.std.specs.Prelude.{length, map as mapped, vec_len, vec_capacity};
ghost use Rattle.fabric.specs.Hands.{IsHandOf, rings_of};
ghost use Rattle.pcapio.specs.Counted.{failures_of, to_come, told};
ghost use Rattle.stages_laws.specs.Output.{Fate};
ghost use Rattle.run_one.specs.Begun.{AreReady, GoesBy, HasInput};
ghost use Rattle.run_one.specs.Ending.{Sums};
ghost use Rattle.run_one.specs.Failing.{HidesNoPort};
ghost use Rattle.stages.specs.Passing.{AreRings};
ghost use Rattle.run_one.specs.Ports.{AreOutputs, AreBeginnings};
ghost use Rattle.run_one.specs.Tallies.{fates_of};
ghost use Rattle.run_one.specs.Turns.{IsVacant};
ghost use Rattle.stages.specs.Threads.{WhyEnded, WhyNoSummaryOfThreads};
ghost use Rattle.run_one.specs.Whole.{IsRun, IsBegun, IsUntouched};
ghost use Rattle.run_one.specs.declared.fault.RunFault.TheVariants.{Memory, Thread};

use crate::threads::gate::Gate;
use crate::threads::item::RingItem;
use crate::threads::reader::{dismiss, feed};
use crate::threads::reader_outcome::ReaderOutcome;
use crate::threads::ring_access::RingAccess;
use crate::threads::rings::{SPAN, open_rings};
use crate::threads::sink::drain;
use crate::threads::unused::Unused;
use crate::threads::worker::{Worked, work};
use burst::Burst;
use fabric::{Fabric, Hand, Opened};
use pcapio::{Counted, Reader};
use run_one::{Outputs, RunFault, Sink, Summary, end, input_fault, into_devices, open_all};
use settings::Settings;
use stages_laws::Run;
use std::alloc::Global;
use std::io::{Read, Write};
use std::marker::Brand;
use std::sync::Wait;
use std::thread::{self, JoinHandle, Scope, Threads};
use std::time::Clock;

/// Forwards the capture that `reader` has, as `run_one` does, by a reader and `workers` workers, each in a thread of
/// its own, and the sink on the calling thread: each port's device receives what `run_one` writes to it, and the counts
/// are the same. Requires: a device for each port, and 1 to 16 workers. Memory is taken at the start, and doesn't grow
/// with the capture. `gate` watches the packets while they are judged.
///
/// All devices are handed back, the ports' in their order; the input's is `None` only if its thread couldn't be
/// started. Errors: 1 `Memory`; 2 `Thread`, if a thread couldn't be started; 3 `Read` and 4 `Write(port)`, if that
/// device failed in this call; 5 `Capture`, if the input is refused; 6 `Window`, if it has 2^64 - 1 records or more, or
/// a record didn't arrive at the sink; 7 `Worn`, if the positions of a ring are used up. Of several the one with the
/// lowest number. A prefix of its output has then been written to each port's device, and after a port's device failed
/// nothing more was written to any port. The threads have ended by then, too; a run of more than 2^44 - 512 packets may
/// not end.
pub fn run_threads<
    G: Gate + Sync,
    R: Read + Send + Drop,
    W: Write + Drop,
    T: Threads + Wait + Clock + Sync,
>(
    rt: &T,
    alloc: Global,
    gate: &G,
    workers: usize,
    reader: Counted<R>,
    writers: Vec<Counted<W>>,
    settings: &Settings,
) -> (
    Option<Counted<R>>,
    Vec<Counted<W>>,
    Result<Summary, RunFault>,
)
    requires at_least { 0 < workers }
    requires at_most { workers ≤ 16 }
    requires ports { vec_len writers ≡ vec_len settings.now.ports.sources }

    // What is handed back.
    ensures length { vec_len result.1 ≡ vec_len writers }
    ensures here { result.0 ≡ None → result.2 ≡ Err Thread }

    // What was written: all with a summary, a beginning otherwise.
    ensures run { IfOk result.2 (λ summary. IfSome (to_come R.remaining reader) (λ bytes.
        IsRun W.contents settings.now bytes writers.items result.1.items summary)) }
    ensures begun { IfSome (to_come R.remaining reader) (λ bytes.
        IsBegun W.contents settings.now bytes writers.items result.1.items) }
    ensures untouched { IfSome (to_come R.remaining reader) (λ bytes.
        IsUntouched W.contents settings.now bytes writers.items result.1.items) }

    // Faults.
    ensures cause { IfErr result.2 (WhyNoSummaryOfThreads R.remaining reader result.0 writers.items result.1.items) }
    ensures ports { IfErr result.2 (HidesNoPort (mapped failures_of writers.items) result.1.items) }
{
    let reader = match Reader::open(alloc, reader) {
        Ok(reader) => reader,
        Err((device, fault)) => return (Some(device), writers, Err(input_fault(fault))),
    };
    match open_all(alloc, writers, reader.resolution()) {
        Ok((outputs, spare)) => run_started::<Brand, G, R, W, T>(
            rt, alloc, gate, workers, reader, outputs, spare, settings,
        ),
        Err(writers) => (Some(reader.into_inner()), writers, Err(RunFault::Memory)),
    }
}

/// Makes the sink, forwards all records by threads, and ends the run. Nothing has been written yet, and each writer has
/// a file header to write.
fn run_started<
    J: Run + Send + Sync,
    G: Gate + Sync,
    R: Read + Send + Drop,
    W: Write + Drop,
    T: Threads + Wait + Clock + Sync,
>(
    rt: &T,
    alloc: Global,
    gate: &G,
    workers: usize,
    reader: Reader<R>,
    outputs: Outputs<W>,
    spare: Vec<Counted<W>>,
    settings: &Settings,
) -> (
    Option<Counted<R>>,
    Vec<Counted<W>>,
    Result<Summary, RunFault>,
)
    requires at_most { workers ≤ 16 }
    requires input { HasInput R.remaining reader J.input J.read_failures }
    requires settings { GoesBy settings.now J.room J.forwarding (length J.before) }
    requires outputs { AreReady W.contents outputs spare.items (vec_capacity spare) J.before J.failures J.resolution }

    // What is handed back.
    ensures length { vec_len result.1 ≡ length J.before }
    ensures here { result.0 ≡ None → result.2 ≡ Err Thread }

    // What was written and counted: all with a summary, a beginning otherwise.
    ensures outputs { OnOk result.2 ((all : List Fate) → fates_of J.forwarding J.room J.input ≡ Some all
        → AreOutputs W.contents J.before J.resolution all result.1.items) }
    ensures begun { (all : List Fate) → fates_of J.forwarding J.room J.input ≡ Some all
        → AreBeginnings W.contents J.before J.resolution all result.1.items }
    ensures counts { IfOk result.2 (Sums J.input (length J.before) J.room J.forwarding) }

    // Faults.
    ensures cause { IfErr result.2 (WhyEnded J.input J.failures J.read_failures result.0 result.1.items) }
    ensures ports { IfErr result.2 (HidesNoPort J.failures result.1.items) }
{
    let sink: Sink<J, W> = match Sink::new(alloc, settings.buffers as usize, outputs) {
        Ok(sink) => sink,
        Err(outputs) => {
            let devices = into_devices(outputs.writers, spare);
            return (Some(reader.into_inner()), devices, Err(RunFault::Memory));
        }
    };
    let (sink, outcome) = over_rings(rt, alloc, gate, workers, reader, sink, settings);
    let ReaderOutcome { device, answer, .. } = outcome;
    let (devices, told) = end(sink, spare, answer);
    (device, devices, told)
}

/// Makes the rings and the segments, and runs the threads over them.
fn over_rings<
    J: Run + Send + Sync,
    G: Gate + Sync,
    R: Read + Send + Drop,
    W: Write + Drop,
    T: Threads + Wait + Clock + Sync,
>(
    rt: &T,
    alloc: Global,
    gate: &G,
    workers: usize,
    reader: Reader<R>,
    sink: Sink<J, W>,
    settings: &Settings,
) -> (Sink<J, W>, ReaderOutcome<J, R>)
    requires at_most { workers ≤ 16 }
    requires vacant { IsVacant sink.window }
    requires input { HasInput R.remaining reader J.input J.read_failures }
    requires settings { GoesBy settings.now J.room J.forwarding (length J.before) }
{
    let Some(opened) = open_rings::<J>(alloc, settings) else {
        return (sink, ReaderOutcome::unread(reader, RunFault::Memory));
    };
    let Opened {
        fabric,
        hand,
        items,
    } = opened;
    let unused = Unused::new(items, workers, settings.burst as usize);
    run_stages(
        rt, alloc, gate, workers, &fabric, hand, reader, unused, sink, settings,
    )
}

/// The threads of a run, over rings that are all empty: no segment is in use yet.
fn run_stages<
    J: Run + Send + Sync,
    G: Gate + Sync,
    R: Read + Send + Drop,
    W: Write + Drop,
    T: Threads + Wait + Clock + Sync,
>(
    rt: &T,
    alloc: Global,
    gate: &G,
    workers: usize,
    f: &Fabric<RingItem<J>, SPAN>,
    hand: Hand<RingItem<J>>,
    reader: Reader<R>,
    unused: Unused<J>,
    sink: Sink<J, W>,
    settings: &Settings,
) -> (Sink<J, W>, ReaderOutcome<J, R>)
    requires hand { IsHandOf f.now hand }
    requires rings { AreRings (rings_of f.now) }
    requires at_most { workers ≤ 16 }
    requires vacant { IsVacant sink.window }
    requires input { HasInput R.remaining reader J.input J.read_failures }
    requires settings { GoesBy settings.now J.room J.forwarding (length J.before) }
{
    thread::scope(
        thread::scope_env(),
        rt,
        move |scope| -> (Sink<J, W>, ReaderOutcome<J, R>)
            requires { IsHandOf f.now hand × AreRings (rings_of f.now) × (workers ≤ 16) × IsVacant sink.window
                × HasInput R.remaining reader J.input J.read_failures
                × GoesBy settings.now J.room J.forwarding (length J.before) }
        {
            let mut sink = sink;
            let hands = start_workers(scope, rt, alloc, gate, workers, f, hand, settings);
            let (mine, other) = match hands {
                Ok(both) => both,
                Err((hand, started, fault)) => {
                    let sink = call_off(rt, f, hand, sink, started, settings);
                    return (sink, ReaderOutcome::unread(reader, fault));
                }
            };
            let thread = start_reader(scope, rt, f, mine, reader, unused, workers, settings);
            let Some(thread) = thread else {
                let sink = call_off(rt, f, other, sink, workers, settings);
                return (sink, ReaderOutcome::lost());
            };
            let mut access = RingAccess::new(f, other);
            let drained = drain(rt, &mut access, &mut sink, workers, settings.burst as usize);
            (sink, thread.join(rt).with(drained))
        },
    )
}

/// Starts the workers, each with a hand of its own, and returns two more hands: the first has all buffers. If a worker
/// can't be started, or memory is refused, returns the hand, and the number of workers that were started.
fn start_workers<
    's,
    E: 's,
    J: Run + Send + Sync + 's,
    G: Gate + Sync + 's,
    T: Threads + Wait + Clock + Sync + 's,
>(
    scope: &Scope<'s, E>,
    rt: &'s T,
    alloc: Global,
    gate: &'s G,
    workers: usize,
    f: &'s Fabric<RingItem<J>, SPAN>,
    mut hand: Hand<RingItem<J>>,
    settings: &'s Settings,
) -> Result<(Hand<RingItem<J>>, Hand<RingItem<J>>), (Hand<RingItem<J>>, usize, RunFault)>
    requires hand { IsHandOf f.now hand }
    requires rings { AreRings (rings_of f.now) }
    requires settings { GoesBy settings.now J.room J.forwarding (length J.before) }
    ensures ok { IfOk result (λ hands. IsHandOf f.now hands.0 × IsHandOf f.now hands.1) }
    ensures err { IfErr result (λ e. IsHandOf f.now e.0 × (e.1 ≤ workers) × ((e.2 ≡ Memory) ⊎ (e.2 ≡ Thread))) }
{
    for started in 0..workers {
        let (mine, other) = match hand.split(alloc, f) {
            Ok(both) => both,
            Err((back, _)) => return Err((back, started, RunFault::Memory)),
        };
        hand = mine;
        if !start_worker(scope, rt, gate, f, other, settings) {
            return Err((hand, started, RunFault::Thread));
        }
    }
    match hand.split(alloc, f) {
        Ok(both) => Ok(both),
        Err((back, _)) => Err((back, workers, RunFault::Memory)),
    }
}

/// Starts a worker in a thread of its own. Returns whether the thread could be started.
fn start_worker<
    's,
    E: 's,
    J: Run + Send + Sync + 's,
    G: Gate + Sync + 's,
    T: Threads + Wait + Clock + Sync + 's,
>(
    scope: &Scope<'s, E>,
    rt: &'s T,
    gate: &'s G,
    f: &'s Fabric<RingItem<J>, SPAN>,
    hand: Hand<RingItem<J>>,
    settings: &'s Settings,
) -> bool
    requires hand { IsHandOf f.now hand }
    requires rings { AreRings (rings_of f.now) }
    requires settings { GoesBy settings.now J.room J.forwarding (length J.before) }
{
    let burst = settings.burst as usize;
    let worker = scope.spawn(
        move || -> Worked<RingItem<J>>
            requires { IsHandOf f.now hand × AreRings (rings_of f.now)
                × GoesBy settings.now J.room J.forwarding (length J.before) × (0 < burst) × (burst ≤ 64) }
        { work(rt, gate, f, hand, burst, &settings.table, &settings.ports) },
    );
    worker.is_ok()
}

/// Starts the reader in a thread of its own, with the hand that has the unused segments. Returns `None` if the
/// thread couldn't be started; the reader is then lost.
fn start_reader<
    's,
    E: 's,
    J: Run + Send + Sync + 's,
    R: Read + Send + Drop + 's,
    T: Threads + Wait + Clock + Sync + 's,
>(
    scope: &Scope<'s, E>,
    rt: &'s T,
    f: &'s Fabric<RingItem<J>, SPAN>,
    hand: Hand<RingItem<J>>,
    reader: Reader<R>,
    unused: Unused<J>,
    workers: usize,
    settings: &'s Settings,
) -> Option<JoinHandle<ReaderOutcome<J, R>>>
    requires hand { IsHandOf f.now hand }
    requires rings { AreRings (rings_of f.now) }
    requires at_most { workers ≤ 16 }
    requires input { HasInput R.remaining reader J.input J.read_failures }
    requires settings { GoesBy settings.now J.room J.forwarding (length J.before) }
{
    let reader = scope.spawn(
        move || -> ReaderOutcome<J, R>
            requires { IsHandOf f.now hand × AreRings (rings_of f.now) × (workers ≤ 16)
                × HasInput R.remaining reader J.input J.read_failures
                × GoesBy settings.now J.room J.forwarding (length J.before) }
        {
            let access = RingAccess::new(f, hand);
            feed(rt, access, reader, unused, workers, settings)
        },
    );
    reader.ok()
}

/// Ends the workers that were started, after another thread couldn't be: each gets an end mark, and their output is
/// taken.
fn call_off<J: Run, W: Write + Drop, T: Wait + Clock>(
    rt: &T,
    f: &Fabric<RingItem<J>, SPAN>,
    hand: Hand<RingItem<J>>,
    mut sink: Sink<J, W>,
    started: usize,
    settings: &Settings,
) -> Sink<J, W>
    requires hand { IsHandOf f.now hand }
    requires rings { AreRings (rings_of f.now) }
    requires at_most { started ≤ 16 }
    requires vacant { IsVacant sink.window }
{
    let mut access = RingAccess::new(f, hand);
    let mut none = Burst::<RingItem<J>, SPAN>::new();
    let sent = dismiss(rt, &mut access, &mut none, started);
    if sent.is_ok() {
        let burst = settings.burst as usize;
        let _told = drain(rt, &mut access, &mut sink, started, burst);
    }
    sink
}
