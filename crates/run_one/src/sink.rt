//! The sink of a run: packets arrive in any order, and leave in the order of their numbers.
ghost use Rattle.std.specs.Prelude.{◌≡◌, ◌≤◌, ◌+◌, ◌-◌, ◌^◌, ◌<◌, ◌↔◌, None, Some, length, vec_len};
ghost use Rattle.std.specs.Prelude.{IfOk, IfErr, IsOk, OnOk, OnErr};
ghost use Rattle.std.specs.Prelude.{map as mapped};
ghost use Rattle.std.specs.FinMap as map;
ghost use Rattle.pcapio.specs.Counted.{told, failures_of};
ghost use Rattle.reorder.specs.Waiting.{empty_window, after_next, with_number, IsFree};
ghost use Rattle.counters.specs.Tally.{records_of};
ghost use Rattle.run_one.specs.Failing.{FailedOnce};
ghost use Rattle.run_one.specs.Keyed.{IsKeyed, LetsGo};
ghost use Rattle.run_one.specs.Ports.{HasTexts, HasBegun, AreFresh, devices_of};
ghost use Rattle.run_one.specs.Tallies.{IsTally, fates_of};

mod frames;

use crate::packet::Judged;
use crate::ports::Outputs;
use counters::Counts;
use mbuf::Chain;
use reorder::Window;
use stages_laws::Run;
use std::alloc::Global;
use std::io::Write;

/// What is waiting for its turn, what was written, and what was counted.
#[derive(Drop)]
pub struct Sink<J: Run, W: Write> {
    pub window: Window<Judged<J>>,
    pub outputs: Outputs<W>,
    pub counts: Counts,
    pub ghost keyed: { IsKeyed window },
    pub ghost counted: { IsTally (fates_of J.forwarding J.room J.input) (length J.before) window.next counts },
    pub ghost bounded: { records_of counts ≤ window.next },
    pub ghost ports: { length counts.sent ≡ length J.before },
    pub ghost many: { vec_len outputs.writers ≡ length J.before },
    pub ghost texts: { HasTexts W.contents J.before J.resolution (fates_of J.forwarding J.room J.input) window.next
        outputs.failed outputs.writers.items },
    pub ghost begun: { HasBegun W.contents J.before J.resolution (fates_of J.forwarding J.room J.input)
        outputs.failed outputs.writers.items },
    pub ghost failures: { FailedOnce J.failures outputs.failed (devices_of outputs.writers.items) },
}

impl<J: Run, W: Write + Drop> Sink<J, W> {
    /// A sink before the first packet, with a window of `size` numbers. Errors: out of memory, with the writers handed
    /// back.
    pub fn new(alloc: Global, size: usize, outputs: Outputs<W>) -> Result<Sink<J, W>, Outputs<W>>
        requires nonzero { 0 < size }
        requires small { size ≤ 65536 }
        requires before { mapped (told W.contents) (devices_of outputs.writers.items) ≡ J.before }
        requires failures { mapped failures_of (devices_of outputs.writers.items) ≡ J.failures }
        requires one { 0 < vec_len outputs.writers }
        requires at_most { vec_len outputs.writers ≤ 16 }
        requires fresh { AreFresh W.contents J.resolution outputs.writers.items }
        requires no_failure { outputs.failed ≡ None }
        ensures window { IfOk result (λ sink. sink.window ≡ empty_window size) }
        ensures outputs { IfOk result (λ sink. sink.outputs ≡ outputs) }
        ensures refused { IfErr result (λ back. back ≡ outputs) }
    {
        match Window::new(alloc, size) {
            Ok(window) => {
                let counts = Counts::new(outputs.writers.len());
                Ok(Sink {
                    window,
                    outputs,
                    counts,
                })
            }
            Err(_) => Err(outputs),
        }
    }

    /// Accepts a packet, which leaves in its turn.
    pub fn accept(&mut self, packet: Judged<J>) -> Result<(), Judged<J>>
        ensures free { IsOk result ↔ IsFree self.old.window packet.seq }
        ensures joined { OnOk result (self.new.window ≡ with_number self.old.window packet.seq packet) }
        ensures back { IfErr result (λ back. back ≡ packet) }
        ensures kept { OnErr result (self.new.window ≡ self.old.window) }
        ensures outputs { self.new.outputs ≡ self.old.outputs }
    {
        let seq = packet.seq;
        match self.window.insert(seq, packet) {
            Ok(()) => Ok(()),
            Err((packet, _)) => Err(packet),
        }
    }

    /// Releases the next packet in sequence, if it has arrived: counts it, and writes it to its port if it is sent.
    pub fn give(&mut self) -> Option<Chain>
        ensures gone { LetsGo self.old.window self.new.window result }
        ensures none { map.get self.old.window.held self.old.window.next ≡ None
            → (result ≡ None) × (self.new.window ≡ self.old.window) }
        ensures length { vec_len self.new.outputs.writers ≡ vec_len self.old.outputs.writers }
    {
        // read for the proof: the number whose turn it is, before `pop` moves on
        let _turn = self.window.next();
        let Judged {
            seconds,
            fraction,
            wire,
            verdict,
            chain,
            ..
        } = self.window.pop()?;
        self.counts.add(&verdict);
        self.outputs
            .put_unless_failed(verdict, seconds, fraction, wire, &chain);
        Some(chain)
    }

    /// Releases a packet at once if it is its turn and no other has its number, and returns its chain: what `accept`
    /// and `give` do, without moving the packet into the window. Any other packet comes back.
    // inlined, so that neither the packet nor its chain is passed through memory
    #[inline(always)]
    pub fn pass(&mut self, packet: Judged<J>) -> Result<Chain, Judged<J>>
        ensures passed { IsOk result ↔ ((packet.seq ≡ self.old.window.next) × IsFree self.old.window packet.seq) }
        ensures chain { IfOk result (λ chain. chain ≡ packet.chain) }
        ensures window { OnOk result (self.new.window ≡ after_next (with_number self.old.window packet.seq packet)) }
        ensures back { IfErr result (λ back. back ≡ packet) }
        ensures kept { OnErr result ((self.new.window ≡ self.old.window) × (self.new.outputs ≡ self.old.outputs)) }
        ensures length { vec_len self.new.outputs.writers ≡ vec_len self.old.outputs.writers }
    {
        if !self.window.pass(packet.seq) {
            return Err(packet);
        }
        let Judged {
            seconds,
            fraction,
            wire,
            verdict,
            chain,
            ..
        } = packet;
        self.counts.add(&verdict);
        self.outputs
            .put_unless_failed(verdict, seconds, fraction, wire, &chain);
        Ok(chain)
    }

    /// The number of the packet whose turn it is, which is how many have left.
    pub(crate) fn next(&self) -> u64
        ensures { result ≡ self.now.window.next }
    {
        self.window.next()
    }

    /// Accepts the packet whose turn it is, releases it at once, and returns its segments: what a run by one thread
    /// does with each packet.
    pub(crate) fn forward(&mut self, packet: Judged<J>) -> Chain
        requires turn { packet.seq ≡ self.old.window.next }
        requires below { self.old.window.next < 2 ^ 64 - 1 }
        requires vacant { map.get self.old.window.held self.old.window.next ≡ None }
        ensures chain { result ≡ packet.chain }
        ensures window { self.new.window ≡ after_next (with_number self.old.window packet.seq packet) }
        ensures length { vec_len self.new.outputs.writers ≡ vec_len self.old.outputs.writers }
    {
        // read for the proof: the window has some places, so that this packet's number is in reach
        let _turn = self.window.next();
        match self.pass(packet) {
            Ok(chain) => chain,
            Err(_) => unreachable!(),
        }
    }
}
