//! The bytes of a record, read into the segments of a chain.
ghost use Rattle.std.specs.Prelude.{◌≡◌, ◌≤◌, length, OnOk, OnErr};
ghost use Rattle.mbuf.specs.Chain.{bytes_of, shape_of, fresh_of, HasSameSegments, space_of};
ghost use Rattle.pcapio.specs.ReadBuffer.{Gives, HasFewer};
ghost use Rattle.pcapio.specs.Answer.{OnAll, OnCut};
ghost use Rattle.pcapio.specs.Counted.{HasFailed, HasNotFailed};

use crate::counted::{Counted, Failed};
use crate::read_buffer::ReadBuffer;
use mbuf::Chain;
use std::io::Read;

/// Reads over all bytes of the chain, or reports that fewer are left.
fn fill_chain<R: Read>(
    ahead: &mut ReadBuffer,
    device: &mut Counted<R>,
    chain: &mut Chain,
) -> Result<bool, Failed>
    ensures whole { OnAll result (Gives R.remaining ahead.old device.old ahead.new device.new (bytes_of chain.new)) }
    ensures short { OnCut result (HasFewer R.remaining (length (bytes_of chain.old)) ahead.old device.old) }
    ensures shape { shape_of chain.new ≡ shape_of chain.old }
    ensures ok { OnOk result (HasNotFailed device.old device.new) }
    ensures err { OnErr result (HasFailed device.old device.new) }
{
    for i in 0..chain.segments() {
        if !ahead.fill(device, chain.part_mut(i))? {
            return Ok(false);
        }
    }
    Ok(true)
}

/// Makes the packet `count` bytes long, and reads them; or makes the chain fresh, and reports that fewer are left.
pub(crate) fn read_body<R: Read>(
    ahead: &mut ReadBuffer,
    device: &mut Counted<R>,
    chain: &mut Chain,
    count: usize,
) -> Result<bool, Failed>
    requires space { count ≤ space_of chain.old }
    ensures whole { OnAll result (Gives R.remaining ahead.old device.old ahead.new device.new (bytes_of chain.new)) }
    ensures length { OnAll result (length (bytes_of chain.new) ≡ count) }
    ensures short { OnCut result (HasFewer R.remaining count ahead.old device.old) }
    ensures kept { HasSameSegments chain.new chain.old }
    ensures fresh { OnCut result (chain.new ≡ fresh_of chain.old) }
    ensures given_up { OnErr result (chain.new ≡ fresh_of chain.old) }
    ensures ok { OnOk result (HasNotFailed device.old device.new) }
    ensures err { OnErr result (HasFailed device.old device.new) }
{
    let Ok(()) = chain.resize(count) else {
        unreachable!();
    };
    match fill_chain(ahead, device, chain) {
        Ok(true) => Ok(true),
        Ok(false) => {
            chain.reset();
            Ok(false)
        }
        Err(Failed) => {
            chain.reset();
            Err(Failed)
        }
    }
}
