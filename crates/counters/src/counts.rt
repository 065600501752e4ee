//! Counting.

ghost use Rattle.std.specs.Prelude.{◌≡◌, ◌+◌, ◌-◌, ◌<◌, ◌≤◌, ◌^◌, ℕ, List, [], ◌∷◌, ◌++◌, length, fold, sum_by};
ghost use Rattle.std.specs.List.{AllByRecursion};
ghost use Rattle.ipv4.specs.declared.Verdict.{Verdict};
ghost use Rattle.ipv4.specs.Reasons.{number_of};
ghost use Rattle.counters.specs.Tally.{records_of, plus, gathered, SamePorts, with_sent, with_dropped};
ghost use Rattle.counters.specs.Counted.{counts_of, IsWithin};

use crate::row::{add_row, raise};
use ipv4::{MAX_PORTS, Reason, Verdict};
use std::marker::Model;

/// The number of reasons to drop a frame.
const REASONS: usize = 7;

/// The counts of a run. They have a fixed size, and only `report` takes memory.
#[derive(Drop)]
pub struct Counts {
    oversize: u64,
    ports: usize,
    sent: [u64; MAX_PORTS],
    dropped: [u64; REASONS],
    tagged: u64,
}

impl Model for Counts {
    ghost use Rattle.std.specs.Prelude.{◌≤◌};
    ghost use Rattle.counters.specs.Tally.{Tally, tally_code};

    ghost Value = { Tally };

    ghost coded = { tally_code };

    ghost use Rattle.counters.specs.Kept.{tally_in, IsKept};

    ghost view = { tally_in };

    ghost invariant = { IsKept };
}

impl Counts {
    /// Counts of 0, with 1 to 16 ports.
    pub fn new(ports: usize) -> Counts
        requires nonzero { 0 < ports }
        requires at_most { ports ≤ 16 }
        ensures { result ≡ counts_of ports 0 [] }
    {
        Counts {
            oversize: 0,
            ports,
            sent: [0; MAX_PORTS],
            dropped: [0; REASONS],
            tagged: 0,
        }
    }

    /// Counts a verdict. Requires: if it sends the frame, the port is one of these.
    pub fn add(&mut self, verdict: &Verdict)
        requires port { IsWithin (length self.old.sent) verdict.now }
        requires room { records_of self.old + 1 < 2 ^ 64 }
        ensures plus { self.new ≡ plus self.old (counts_of (length self.old.sent) 0 (verdict.now ∷ [])) }
        ensures counted { (oversize : ℕ) (verdicts : List Verdict)
            → self.old ≡ counts_of (length self.old.sent) oversize verdicts
            → self.new ≡ counts_of (length self.old.sent) oversize (verdicts ++ verdict.now ∷ []) }
        ensures ports { length self.new.sent ≡ length self.old.sent }
        ensures records { records_of self.new ≡ records_of self.old + 1 }
    {
        match *verdict {
            Verdict::Send { port, tagged } => self.add_sent(port as usize, tagged),
            Verdict::Drop(reason) => self.add_dropped(reason),
        }
    }

    /// Counts a frame that was sent.
    fn add_sent(&mut self, port: usize, tagged: bool)
        requires port { port < length self.old.sent }
        requires room { records_of self.old + 1 < 2 ^ 64 }
        ensures { self.new ≡ with_sent self.old port tagged }
    {
        raise(&mut self.sent, port);
        self.tagged += u64::from(tagged);
    }

    /// Counts a frame that was dropped.
    fn add_dropped(&mut self, reason: Reason)
        requires room { records_of self.old + 1 < 2 ^ 64 }
        ensures value { self.new ≡ with_dropped self.old (number_of reason - 1) }
        ensures records { records_of self.new ≡ records_of self.old + 1 }
    {
        raise(&mut self.dropped, reason.number() as usize - 1);
    }

    /// Counts an oversize record.
    pub fn add_oversize(&mut self)
        requires room { records_of self.old + 1 < 2 ^ 64 }
        ensures plus { self.new ≡ record self.old { oversize = self.old.oversize + 1 } }
        ensures counted { (oversize : ℕ) (verdicts : List Verdict)
            → self.old ≡ counts_of (length self.old.sent) oversize verdicts
            → self.new ≡ counts_of (length self.old.sent) (oversize + 1) verdicts }
        ensures records { records_of self.new ≡ records_of self.old + 1 }
    {
        self.oversize += 1;
    }

    /// The sums of several counts, at least one, all with the same number of ports.
    pub fn gather(list: &[Counts]) -> Counts
        requires nonzero { 0 < length list.now }
        requires same { SamePorts list.now }
        requires fits { sum_by records_of list.now < 2 ^ 64 }
        ensures { result ≡ gathered list.now }
    {
        match list {
            [first, rest @ ..] => {
                let mut sums = first.copied();
                sums.add_all(rest);
                sums
            }
            [] => unreachable!(),
        }
    }

    /// Adds other counts, one after another.
    fn add_all(&mut self, list: &[Counts])
        requires same { AllByRecursion (λ t. length t.sent ≡ length self.old.sent) list.now }
        requires fits { records_of self.old + sum_by records_of list.now < 2 ^ 64 }
        ensures { self.new ≡ fold plus self.old list.now }
    {
        for counts in list {
            self.add_counts(counts);
        }
    }

    /// The same counts.
    fn copied(&self) -> Counts
        ensures { result ≡ self.now }
    {
        Counts {
            oversize: self.oversize,
            ports: self.ports,
            sent: self.sent,
            dropped: self.dropped,
            tagged: self.tagged,
        }
    }

    /// Adds other counts with the same number of ports.
    fn add_counts(&mut self, other: &Counts)
        requires same { length other.now.sent ≡ length self.old.sent }
        requires fits { records_of self.old + records_of other.now < 2 ^ 64 }
        ensures plus { self.new ≡ plus self.old other.now }
        ensures ports { length self.new.sent ≡ length self.old.sent }
        ensures records { records_of self.new ≡ records_of self.old + records_of other.now }
    {
        self.oversize += other.oversize;
        add_row(&mut self.sent, &other.sent, self.ports);
        add_row(&mut self.dropped, &other.dropped, REASONS);
        self.tagged += other.tagged;
    }

    /// How many records were counted, oversize ones and those of each verdict.
    pub fn records(&self) -> u64
        ensures { result ≡ records_of self.now }
    {
        let sent: u64 = self.sent[..self.ports].iter().sum();
        let dropped: u64 = self.dropped.iter().sum();
        self.oversize + sent + dropped
    }

    /// Oversize records.
    pub fn oversize(&self) -> u64
        ensures { result ≡ self.now.oversize }
    {
        self.oversize
    }

    /// Sent frames, for each port.
    pub fn sent(&self) -> &[u64]
        ensures value { result.now ≡ self.now.sent }
        ensures ports { length result.now ≤ 16 }
    {
        &self.sent[..self.ports]
    }

    /// Dropped frames, for each reason in the order of their numbers.
    pub fn dropped(&self) -> &[u64]
        ensures value { result.now ≡ self.now.dropped }
        ensures reasons { length result.now ≡ 7 }
    {
        &self.dropped
    }

    /// Sent frames with an 802.1Q tag.
    pub fn tagged(&self) -> u64
        ensures { result ≡ self.now.tagged }
    {
        self.tagged
    }
}
