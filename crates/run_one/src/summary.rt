//! The end of a run: everything is written to the devices, and compared with what the reader numbered.
ghost use Rattle.std.specs.Prelude.{◌≡◌, ◌≢◌, ◌≤◌, ◌+◌, ℕ, [], List, Some, Err, OnOk, IfOk, IfErr, length, vec_len, vec_capacity};
ghost use Rattle.counters.specs.Tally.{records_of};
ghost use Rattle.stages_laws.specs.Output.{Fate};
ghost use Rattle.run_one.specs.Ports.{AreOutputs, AreBeginnings};
ghost use Rattle.run_one.specs.Tallies.{IsTally, fates_of};
ghost use Rattle.run_one.specs.Failing.{HidesNoPort};
ghost use Rattle.run_one.specs.Faults.{lowest_of, number_of};
ghost use Rattle.run_one.specs.Ending.{Sums, WhyFaulted};
ghost use Rattle.run_one.specs.declared.fault.RunFault.{RunFault};
ghost use Rattle.run_one.specs.declared.fault.RunFault.TheVariants.{Thread, Write, Window};

use crate::fault::RunFault;
use crate::ports::close::close;
use crate::records::input_totals::InputTotals;
use crate::sink::Sink;
use counters::Counts;
use pcapio::Counted;
use stages_laws::Run;
use std::io::Write;

/// The result of a run.
#[derive(Drop)]
pub struct Summary {
    /// The counts of the whole input.
    pub counts: Counts,
    /// Whether the input ended inside a record.
    pub torn: bool,
}

/// The fault with the lower number: the one of a port, or the one of the reader.
fn lowest(port: u32, fault: RunFault) -> RunFault
    ensures { result ≡ lowest_of port fault }
{
    if fault.number() < 4 {
        fault
    } else {
        RunFault::Write(port)
    }
}

/// The summary, if all numbered records have left.
fn summed<J: Run>(next: u64, counts: Counts, totals: InputTotals<J>) -> Result<Summary, RunFault>
    requires counted { IsTally (fates_of J.forwarding J.room J.input) (length J.before) next counts }
    requires ports { length counts.sent ≡ length J.before }
    requires bounded { records_of counts ≤ next }
    ensures all { OnOk result ((all : List Fate)
        → fates_of J.forwarding J.room J.input ≡ Some all → next ≡ length all) }
    ensures counts { IfOk result (Sums J.input (length J.before) J.room J.forwarding) }
    ensures cause { IfErr result (λ fault. (fault ≡ Window) × (next ≢ totals.count)) }
{
    if next != totals.count {
        return Err(RunFault::Window);
    }
    Ok(Summary {
        counts: Counts::gather(&[counts, totals.oversize]),
        torn: totals.torn,
    })
}

/// The result of a run, with the devices of its ports.
pub fn end<J: Run, W: Write + Drop>(
    sink: Sink<J, W>,
    spare: Vec<Counted<W>>,
    totals: Result<InputTotals<J>, RunFault>,
) -> (Vec<Counted<W>>, Result<Summary, RunFault>)
    requires empty { spare.items ≡ [] }
    requires room { vec_len sink.outputs.writers ≤ vec_capacity spare }
    requires at_most { vec_len sink.outputs.writers ≤ 16 }
    requires failed { (p : ℕ) → totals ≡ Err (Write p) → sink.outputs.failed ≡ Some p }
    ensures length { vec_len result.0 ≡ length J.before }
    ensures thread { totals ≡ Err Thread → result.1 ≡ Err Thread }
    ensures outputs { OnOk result.1 ((all : List Fate) → fates_of J.forwarding J.room J.input ≡ Some all
        → AreOutputs W.contents J.before J.resolution all result.0.items) }
    ensures begun { (all : List Fate) → fates_of J.forwarding J.room J.input ≡ Some all
        → AreBeginnings W.contents J.before J.resolution all result.0.items }
    ensures counts { IfOk result.1 (Sums J.input (length J.before) J.room J.forwarding) }
    ensures cause { IfErr result.1 (WhyFaulted J.failures sink.window.next totals result.0.items) }
    ensures lowest { (p : ℕ) (reason : RunFault) → result.1 ≡ Err (Write p) → totals ≡ Err reason
        → 4 ≤ number_of reason }
    ensures ports { IfErr result.1 (HidesNoPort J.failures result.0.items) }
{
    let next = sink.next();
    let Sink {
        outputs,
        counts,
        ..
    } = sink;
    let (devices, failed) = close(outputs, spare);
    let told = match (failed, totals) {
        (Some(port), Ok(_)) => Err(RunFault::Write(port)),
        (Some(port), Err(fault)) => Err(lowest(port, fault)),
        (None, Err(fault)) => Err(fault),
        (None, Ok(totals)) => summed(next, counts, totals),
    };
    (devices, told)
}
