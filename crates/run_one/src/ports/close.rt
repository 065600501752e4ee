//! Closing a run's writers: what is waiting in them is written, and their devices are handed back.
ghost use Rattle.std.specs.Prelude.{◌≡◌, ◌≤◌, ◌<◌, [], ℕ, None, Some, length, vec_len, vec_capacity};
ghost use Rattle.run_one.specs.Ports.{AreWell, devices_of};
ghost use Rattle.run_one.specs.PortSteps.{AllBegun, AllTold, AreTold, AreCutShort};
ghost use Rattle.run_one.specs.Failing.{FailsOnce, AllFailOnce};

use crate::ports::Outputs;
use pcapio::{Counted, Writer};
use std::io::Write;

/// Writes what is waiting, port by port. Returns the port whose device fails; no later one is then written to.
pub(crate) fn flush_all<W: Write + Drop>(writers: &mut Vec<Writer<W>>) -> Option<u32>
    requires no_failure { AreWell writers.old.items }
    requires at_most { vec_len writers.old ≤ 16 }
    ensures length { vec_len writers.new ≡ vec_len writers.old }
    ensures exact { result ≡ None → AreTold W.contents writers.old.items writers.new.items }
    ensures cut { (p : ℕ) → result ≡ Some p → AreCutShort W.contents writers.old.items writers.new.items }
    ensures failures { FailsOnce writers.old.items writers.new.items result }
    ensures port { (p : ℕ) → result ≡ Some p → p < vec_len writers.old }
{
    for i in 0..writers.len() {
        let writer = &mut writers[i];
        match writer.flush() {
            Ok(()) => (),
            Err(_) => return Some(i as u32),
        }
    }
    None
}

/// The devices of the writers, in `spare`. What is waiting isn't written.
pub fn into_devices<W: Write + Drop>(
    writers: Vec<Writer<W>>,
    mut spare: Vec<Counted<W>>,
) -> Vec<Counted<W>>
    requires empty { spare.items ≡ [] }
    requires room { vec_len writers ≤ vec_capacity spare }
    ensures { result.items ≡ devices_of writers.items }
{
    for writer in writers {
        spare.push_reserved(writer.into_inner());
    }
    spare
}

/// Writes what is waiting, unless a device has failed before, and hands the devices back with the failed port, if any.
pub(crate) fn close<W: Write + Drop>(
    outputs: Outputs<W>,
    spare: Vec<Counted<W>>,
) -> (Vec<Counted<W>>, Option<u32>)
    requires empty { spare.items ≡ [] }
    requires room { vec_len outputs.writers ≤ vec_capacity spare }
    requires at_most { vec_len outputs.writers ≤ 16 }
    ensures exact { result.1 ≡ None
        → (outputs.failed ≡ None) × AllTold W.contents outputs.writers.items result.0.items }
    ensures cut { outputs.failed ≡ None → (p : ℕ) → result.1 ≡ Some p
        → AllBegun W.contents outputs.writers.items result.0.items }
    ensures still { (p : ℕ) → outputs.failed ≡ Some p
        → (result.1 ≡ Some p) × (result.0.items ≡ devices_of outputs.writers.items) }
    ensures failures { outputs.failed ≡ None
        → AllFailOnce outputs.writers.items result.0.items result.1 }
    ensures port { (p : ℕ) → result.1 ≡ Some p → p < vec_len outputs.writers }
    ensures length { length result.0.items ≡ vec_len outputs.writers }
{
    let Outputs {
        mut writers,
        failed,
    } = outputs;
    match failed {
        Some(port) => (into_devices(writers, spare), Some(port)),
        None => {
            let failed = flush_all(&mut writers);
            (into_devices(writers, spare), failed)
        }
    }
}
