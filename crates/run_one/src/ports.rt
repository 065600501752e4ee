//! The writers of a run, one for each port. After one of them has failed, nothing more is written to any.
ghost use Rattle.std.specs.Prelude.{◌≡◌, ◌<◌, ℕ, Some, None, vec_len};
ghost use Rattle.pcapio.specs.Record.{packet_in};
ghost use Rattle.run_one.specs.Packets.{HasPort};
ghost use Rattle.run_one.specs.Ports.{AreWell};
ghost use Rattle.run_one.specs.PortSteps.{AreLonger, AreCut, part_at};
ghost use Rattle.run_one.specs.Failing.{FailsOnce};

pub(crate) mod close;
mod frames;
pub(crate) mod open;

use ipv4::Verdict;
use mbuf::Chain;
use pcapio::{Counted, Writer};
use std::io::Write;

/// The writers of a run's ports.
#[derive(Drop)]
pub struct Outputs<W> {
    pub writers: Vec<Writer<W>>,
    /// The port whose device failed, if one did.
    pub failed: Option<u32>,
    pub ghost well: { failed ≡ None → AreWell writers.items },
    pub ghost port: { (p : ℕ) → failed ≡ Some p → p < vec_len writers },
}

impl<W: Write + Drop> Outputs<W> {
    /// Writes a packet to the port that it is sent to, if any. Requires: nothing has failed so far.
    pub(crate) fn put(
        &mut self,
        verdict: Verdict,
        seconds: u32,
        fraction: u32,
        wire: u32,
        chain: &Chain,
    )
        requires port { HasPort (vec_len self.old.writers) verdict }
        requires no_failure { self.old.failed ≡ None }
        ensures length { vec_len self.new.writers ≡ vec_len self.old.writers }
        ensures longer { self.new.failed ≡ None → AreLonger W.contents self.old.writers.items self.new.writers.items
            (λ q. part_at q verdict (packet_in seconds fraction wire chain.now)) }
        ensures cut { (p : ℕ) → self.new.failed ≡ Some p
            → AreCut W.contents self.old.writers.items self.new.writers.items
            (λ q. part_at q verdict (packet_in seconds fraction wire chain.now)) }
        ensures failures { FailsOnce self.old.writers.items self.new.writers.items self.new.failed }
    {
        let port = match verdict {
            Verdict::Drop(_) => return,
            Verdict::Send { port, .. } => port,
        };
        let writer = &mut self.writers[port as usize];
        match writer.put(seconds, fraction, wire, chain) {
            Ok(()) => (),
            Err(_) => self.failed = Some(port),
        }
    }

    /// `put`, unless something has failed before.
    // inlined, as `Sink::pass` is
    #[inline(always)]
    pub(crate) fn put_unless_failed(
        &mut self,
        verdict: Verdict,
        seconds: u32,
        fraction: u32,
        wire: u32,
        chain: &Chain,
    )
        requires port { HasPort (vec_len self.old.writers) verdict }
        ensures length { vec_len self.new.writers ≡ vec_len self.old.writers }
        ensures still { (p : ℕ) → self.old.failed ≡ Some p → self.new ≡ self.old }
        ensures longer { self.old.failed ≡ None → self.new.failed ≡ None
            → AreLonger W.contents self.old.writers.items self.new.writers.items
            (λ q. part_at q verdict (packet_in seconds fraction wire chain.now)) }
        ensures cut { self.old.failed ≡ None → (p : ℕ) → self.new.failed ≡ Some p
            → AreCut W.contents self.old.writers.items self.new.writers.items
            (λ q. part_at q verdict (packet_in seconds fraction wire chain.now)) }
        ensures failures { self.old.failed ≡ None
            → FailsOnce self.old.writers.items self.new.writers.items self.new.failed }
    {
        if self.failed.is_none() {
            self.put(verdict, seconds, fraction, wire, chain);
        }
    }
}
