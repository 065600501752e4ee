//! A caller: it adds a route, publishes it, and looks an address up.

ghost use Rattle.std.specs.Prelude.{◌≡◌, IfOk};
ghost use Rattle.lpm.specs.Match.{lookup_in};

use crate::fault::LiveFault;
use crate::reader::RouteReader;
use crate::writer::RouteWriter;

/// Adds a route to the next hop 1, publishes it, and returns what a reader finds for an address. The reader may be in
/// another thread in a program. Errors: as those of `add` and `publish`.
pub(crate) fn added(
    writer: &mut RouteWriter<u32, u32>,
    reader: &mut RouteReader<u32, u32>,
    address: u32,
) -> Result<Option<u32>, LiveFault>
    ensures { IfOk result (λ hop. hop ≡ lookup_in reader.new.seen.latest.members address) }
{
    writer.add(address, 32, 1)?;
    writer.publish()?;
    Ok(reader.lookup(address))
}
