//! A caller: `forward` returns the verdict that `verdict` returned before it.
ghost use Rattle.std.specs.Prelude.{◌≡◌, ◌≤◌, length};
ghost use Rattle.mbuf.specs.Chain.{bytes_of};

use ipv4::{Ports, Verdict, forward, verdict};
use lpm::Table;
use mbuf::Chain;

/// The verdict before a frame is forwarded, and the one with which it is forwarded.
pub fn told_and_done(
    chain: &mut Chain,
    table: &Table,
    ports: &Ports,
    wire: usize,
) -> (Verdict, Verdict)
    requires { length (bytes_of chain.old) ≤ wire }
    ensures { result.0 ≡ result.1 }
{
    let told = verdict(table, ports, chain, wire);
    let done = forward(chain, table, ports, wire);
    (told, done)
}
