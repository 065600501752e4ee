//! Opening the writers of a run, and handing their devices back.
ghost use Rattle.std.specs.Prelude.{◌≡◌, ◌+◌, ◌≤◌, ◌++◌, [], None, IfOk, IfErr, reverse, vec_len, vec_capacity};
ghost use Rattle.run_one.specs.Ports.{AreFresh, devices_of};

use crate::ports::Outputs;
use pcapio::{Counted, Resolution, Writer};
use std::alloc::Global;
use std::io::Write;

/// Writers on these devices, in their order, and the emptied list. Errors: out of memory, with all devices handed back.
pub fn open_all<W: Write + Drop>(
    alloc: Global,
    mut devices: Vec<Counted<W>>,
    resolution: Resolution,
) -> Result<(Outputs<W>, Vec<Counted<W>>), Vec<Counted<W>>>
    ensures devices { IfOk result (λ o. devices_of o.0.writers.items ≡ devices.items) }
    ensures fresh { IfOk result (λ o. AreFresh W.contents resolution o.0.writers.items) }
    ensures no_failure { IfOk result (λ o. o.0.failed ≡ None) }
    ensures spare { IfOk result (λ o. (o.1.items ≡ []) × (vec_len o.0.writers ≤ vec_capacity o.1)) }
    ensures refused { IfErr result (λ back. back.items ≡ devices.items) }
{
    let mut writers = Vec::new(alloc);
    if writers.reserve(devices.len()).is_err() {
        return Err(devices);
    }
    while let Some(device) = devices.pop() {
        match Writer::open(alloc, device, resolution) {
            Ok(writer) => writers.push_reserved(writer),
            Err((device, _)) => {
                devices.push_reserved(device);
                return_devices(&mut devices, writers);
                return Err(devices);
            }
        }
    }
    writers.reverse();
    Ok((
        Outputs {
            writers,
            failed: None,
        },
        devices,
    ))
}

/// Appends the devices of the writers to the others, from the last writer on.
fn return_devices<W: Write + Drop>(devices: &mut Vec<Counted<W>>, mut writers: Vec<Writer<W>>)
    requires room { vec_len devices.old + vec_len writers ≤ vec_capacity devices.old }
    ensures { devices.new.items ≡ devices.old.items ++ reverse (devices_of writers.items) }
{
    while let Some(writer) = writers.pop() {
        devices.push_reserved(writer.into_inner());
    }
}
