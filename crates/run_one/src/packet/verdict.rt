//! The verdict on a packet.
ghost use Rattle.std.specs.Prelude.{◌≡◌, IfSome, length, vec_len};
ghost use Rattle.ipv4.specs.Forwarding.{forwarded};
ghost use Rattle.ipv4.specs.Prefetched.{IsPrefetched};
ghost use Rattle.mbuf.specs.Chain.{HasSameSegments};
ghost use Rattle.run_one.specs.Verdicts.{IsVerdictOf};

use crate::packet::{Judged, Unjudged};
use ipv4::{Ports, Prefetched, forward_prefetched};
use lpm::Table;
use stages_laws::Run;
use std::marker::PhantomData;

impl<J: Run> Unjudged<J> {
    /// The packet after its verdict. Reuses an earlier lookup of the destination, if one is given.
    pub fn judge(self, table: &Table, ports: &Ports, prefetched: Option<Prefetched>) -> Judged<J>
        requires prefetched { IfSome prefetched (IsPrefetched table.now.members) }
        requires rules { forwarded table.now.members ports.now ≡ J.forwarding }
        requires ports { vec_len ports.now.sources ≡ length J.before }
        ensures seq { result.seq ≡ self.seq }
        ensures judged { IsVerdictOf J.forwarding self result }
        ensures kept { HasSameSegments result.chain self.chain }
    {
        let Unjudged {
            seq,
            seconds,
            fraction,
            wire,
            mut chain,
            ..
        } = self;
        let verdict = forward_prefetched(&mut chain, table, ports, wire as usize, prefetched);
        Judged {
            seq,
            seconds,
            fraction,
            wire,
            verdict,
            chain,
            of: PhantomData,
        }
    }
}
