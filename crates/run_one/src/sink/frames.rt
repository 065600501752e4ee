//! A judged record whose frame is in a slice.
ghost use Rattle.std.specs.Prelude.{◌≡◌, ◌+◌, ◌-◌, ◌^◌, ◌<◌, None, length, vec_len};
ghost use Rattle.std.specs.FinMap as map;
ghost use Rattle.pcapio.specs.Record.{packet_of};
ghost use Rattle.run_one.specs.Packets.{IsFate, HasPort};
ghost use Rattle.run_one.specs.Tallies.{fates_of};

use crate::sink::Sink;
use ipv4::Verdict;
use pcapio::Head;
use stages_laws::Run;
use std::io::Write;

impl<J: Run, W: Write + Drop> Sink<J, W> {
    /// Counts the record whose turn it is, and writes it to its port if it is sent: what `forward` does with a packet
    /// that has a chain. Requires: this is what becomes of the record with this number; no port has failed.
    pub(crate) fn forward_frame(&mut self, seq: u64, head: Head, verdict: Verdict, frame: &[u8])
        requires is { IsFate (fates_of J.forwarding J.room J.input) seq verdict (packet_of head frame.now) }
        requires port { HasPort (length J.before) verdict }
        requires turn { seq ≡ self.old.window.next }
        requires below { self.old.window.next < 2 ^ 64 - 1 }
        requires vacant { map.get self.old.window.held self.old.window.next ≡ None }
        requires no_failure { self.old.outputs.failed ≡ None }
        ensures window { self.new.window ≡ record self.old.window { next = self.old.window.next + 1 } }
        ensures length { vec_len self.new.outputs.writers ≡ vec_len self.old.outputs.writers }
    {
        // read for the proof: the window has some places, so that this number is in reach
        let _turn = self.window.next();
        if !self.window.pass(seq) {
            unreachable!();
        }
        self.counts.add(&verdict);
        self.outputs.put_frame(verdict, head, frame);
    }
}
