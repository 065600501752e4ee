//! A frame whose header is contiguous: the verdict on it, and its rewriting if it is sent.
ghost use Rattle.std.specs.Prelude.{◌≡◌, ◌≤◌, IfSome, length};
ghost use Rattle.ipv4.specs.Forwarding.{forwarded};
ghost use Rattle.ipv4.specs.Prefetched.{IsPrefetched};

use crate::fields::is_tagged;
use crate::judge::judge;
use crate::ports::Ports;
use crate::prefetched::Prefetched;
use crate::rewrite::rewrite;
use crate::verdicts::Verdict;
use lpm::Table;

/// The verdict on a frame that was `wire` bytes long and whose captured bytes are in one slice: what `verdict` says of
/// one in a chain. Requires: `wire` is at least the number of bytes. Takes no memory.
#[inline]
pub fn verdict_of_frame(frame: &[u8], table: &Table, ports: &Ports, wire: usize) -> Verdict
    requires { length frame.now ≤ wire }
    ensures { result ≡ (forwarded table.now.members ports.now frame.now wire).verdict }
{
    match judge(frame, table, ports, wire, None) {
        Ok(way) => Verdict::Send {
            port: way.port,
            tagged: is_tagged(frame),
        },
        Err(reason) => Verdict::Drop(reason),
    }
}

/// The verdict on a frame that was `wire` bytes long and whose captured bytes are in one slice. The frame is rewritten
/// in place as it leaves if it is sent: what `forward` does to one in a chain. A dropped frame is unchanged. Reuses an
/// earlier lookup of the destination, if one is given. Requires: `wire` is at least the number of bytes, and the
/// earlier lookup was in a table with the same routes. Takes no memory.
#[inline]
pub fn forward_frame(
    frame: &mut [u8],
    table: &Table,
    ports: &Ports,
    wire: usize,
    prefetched: Option<Prefetched>,
) -> Verdict
    requires wire { length frame.old ≤ wire }
    requires prefetched { IfSome prefetched (IsPrefetched table.now.members) }
    ensures verdict { result ≡ (forwarded table.now.members ports.now frame.old wire).verdict }
    ensures frame { frame.new ≡ (forwarded table.now.members ports.now frame.old wire).frame }
{
    match judge(frame, table, ports, wire, prefetched) {
        Ok(way) => {
            let tagged = is_tagged(frame);
            rewrite(frame, &way);
            Verdict::Send {
                port: way.port,
                tagged,
            }
        }
        Err(reason) => Verdict::Drop(reason),
    }
}
