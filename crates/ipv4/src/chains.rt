//! Forwarding of packets, even if a segment boundary splits the header.
ghost use Rattle.std.specs.Prelude.{◌≡◌, ◌≤◌, IfSome, length, take};
ghost use Rattle.mbuf.specs.Buffer.{overwritten};
ghost use Rattle.mbuf.specs.Chain.{bytes_of, shape_of, HasSameSegments};
ghost use Rattle.ipv4.specs.Forwarding.{forwarded};
ghost use Rattle.ipv4.specs.Prefetched.{IsPrefetched};

use crate::frame::{forward_frame, verdict_of_frame};
use crate::head::{MAX_HEAD, is_enough};
use crate::ports::Ports;
use crate::prefetched::Prefetched;
use crate::verdicts::Verdict;
use lpm::Table;
use mbuf::Chain;

/// The verdict on a frame that was `wire` bytes long, whose captured bytes are in the chain. Requires: `wire` is at
/// least their number. Takes no memory.
#[inline]
pub fn verdict(table: &Table, ports: &Ports, chain: &Chain, wire: usize) -> Verdict
    requires { length (bytes_of chain.now) ≤ wire }
    ensures { result ≡ (forwarded table.now.members ports.now (bytes_of chain.now) wire).verdict }
{
    prove!(chain.segments() > 0);
    let first = chain.part(0);
    if is_enough(first, chain.len()) {
        verdict_of_frame(first, table, ports, wire)
    } else {
        verdict_of_gathered(table, ports, chain, wire)
    }
}

/// The verdict on the frame, which is rewritten in place as it leaves if it is sent: its two addresses, its time to
/// live and its checksum. A dropped frame is unchanged, and nothing else in the segments changes. Requires: `wire` is
/// at least the number of bytes in the chain. Takes no memory.
#[inline]
pub fn forward(chain: &mut Chain, table: &Table, ports: &Ports, wire: usize) -> Verdict
    requires { length (bytes_of chain.old) ≤ wire }
    ensures verdict { result ≡ (forwarded table.now.members ports.now (bytes_of chain.old) wire).verdict }
    ensures frame { bytes_of chain.new ≡ (forwarded table.now.members ports.now (bytes_of chain.old) wire).frame }
    ensures shape { shape_of chain.new ≡ shape_of chain.old }
    ensures kept { HasSameSegments chain.new chain.old }
{
    forward_prefetched(chain, table, ports, wire, None)
}

/// `forward`, reusing an earlier lookup of the frame's destination.
///
/// A header that is in the first segment is read and written there; any other is gathered and written back.
#[inline]
pub fn forward_prefetched(
    chain: &mut Chain,
    table: &Table,
    ports: &Ports,
    wire: usize,
    prefetched: Option<Prefetched>,
) -> Verdict
    requires wire { length (bytes_of chain.old) ≤ wire }
    requires prefetched { IfSome prefetched (IsPrefetched table.now.members) }
    ensures verdict { result ≡ (forwarded table.now.members ports.now (bytes_of chain.old) wire).verdict }
    ensures frame { bytes_of chain.new ≡ (forwarded table.now.members ports.now (bytes_of chain.old) wire).frame }
    ensures shape { shape_of chain.new ≡ shape_of chain.old }
    ensures kept { HasSameSegments chain.new chain.old }
{
    prove!(chain.segments() > 0);
    if is_enough(chain.part(0), chain.len()) {
        forward_frame(chain.part_mut(0), table, ports, wire, prefetched)
    } else {
        forward_gathered(chain, table, ports, wire)
    }
}

/// The verdict on a frame whose header is split.
#[inline(never)]
fn verdict_of_gathered(table: &Table, ports: &Ports, chain: &Chain, wire: usize) -> Verdict
    requires { length (bytes_of chain.now) ≤ wire }
    ensures { result ≡ (forwarded table.now.members ports.now (bytes_of chain.now) wire).verdict }
{
    let mut room = [0; MAX_HEAD];
    let head = &mut room[..chain.len().min(MAX_HEAD)];
    gather(chain, head);
    verdict_of_frame(head, table, ports, wire)
}

/// Forwards a frame whose header is split.
#[inline(never)]
fn forward_gathered(chain: &mut Chain, table: &Table, ports: &Ports, wire: usize) -> Verdict
    requires { length (bytes_of chain.old) ≤ wire }
    ensures verdict { result ≡ (forwarded table.now.members ports.now (bytes_of chain.old) wire).verdict }
    ensures frame { bytes_of chain.new ≡ (forwarded table.now.members ports.now (bytes_of chain.old) wire).frame }
    ensures shape { shape_of chain.new ≡ shape_of chain.old }
    ensures kept { HasSameSegments chain.new chain.old }
{
    let mut room = [0; MAX_HEAD];
    let head = &mut room[..chain.len().min(MAX_HEAD)];
    gather(chain, head);
    let verdict = forward_frame(head, table, ports, wire, None);
    write_back(chain, head);
    verdict
}

/// Copies the front of the frame.
fn gather(chain: &Chain, head: &mut [u8])
    requires { length head.old ≤ length (bytes_of chain.now) }
    ensures front { head.new ≡ take (length head.new) (bytes_of chain.now) }
    ensures len { length head.new ≡ length head.old }
{
    let Ok(()) = chain.bytes(0, head) else {
        unreachable!()
    };
}

/// Writes the front of the frame.
fn write_back(chain: &mut Chain, head: &[u8])
    requires { length head.now ≤ length (bytes_of chain.old) }
    ensures packet { bytes_of chain.new ≡ overwritten 0 head.now (bytes_of chain.old) }
    ensures shape { shape_of chain.new ≡ shape_of chain.old }
    ensures kept { HasSameSegments chain.new chain.old }
{
    let Ok(()) = chain.write(0, head) else {
        unreachable!()
    };
}
