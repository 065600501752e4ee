//! Records whose bytes are in a slice.
ghost use Rattle.std.specs.Prelude.{◌≡◌, ℕ, Some, None, vec_len};
ghost use Rattle.pcapio.specs.Record.{packet_of};
ghost use Rattle.run_one.specs.Failing.{FailsOnce};
ghost use Rattle.run_one.specs.Packets.{HasPort};
ghost use Rattle.run_one.specs.PortSteps.{AreLonger, AreCut, part_at};

use crate::ports::Outputs;
use ipv4::Verdict;
use pcapio::Head;
use std::io::Write;

impl<W: Write + Drop> Outputs<W> {
    /// Writes a record with these bytes to the port that it is sent to, if any: what `put` does for those of a chain.
    /// Requires: nothing has failed so far.
    pub(crate) fn put_frame(&mut self, verdict: Verdict, head: Head, frame: &[u8])
        requires port { HasPort (vec_len self.old.writers) verdict }
        requires no_failure { self.old.failed ≡ None }
        ensures length { vec_len self.new.writers ≡ vec_len self.old.writers }
        ensures longer { self.new.failed ≡ None → AreLonger W.contents self.old.writers.items self.new.writers.items
            (λ q. part_at q verdict (packet_of head frame.now)) }
        ensures cut { (p : ℕ) → self.new.failed ≡ Some p
            → AreCut W.contents self.old.writers.items self.new.writers.items
            (λ q. part_at q verdict (packet_of head frame.now)) }
        ensures failures { FailsOnce self.old.writers.items self.new.writers.items self.new.failed }
    {
        let port = match verdict {
            Verdict::Drop(_) => return,
            Verdict::Send { port, .. } => port,
        };
        let writer = &mut self.writers[port as usize];
        match writer.put_frame(head.seconds, head.fraction, head.wire, frame) {
            Ok(()) => (),
            Err(_) => self.failed = Some(port),
        }
    }
}
