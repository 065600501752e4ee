//! What holds for counts, stated as the contract of a call without a body.

ghost use Rattle.std.specs.Prelude.{◌≡◌, ◌+◌, ℕ, List, ◌++◌};
ghost use Rattle.ipv4.specs.declared.Verdict.{Verdict};
ghost use Rattle.counters.specs.Tally.{plus};
ghost use Rattle.counters.specs.Counted.{counts_of};

/// Parts add up: the counts of two concatenated lists of verdicts are the sums of the counts of each.
pub fn counts_add_up()
    ensures { (ports before after : ℕ) (verdicts more : List Verdict)
        → plus (counts_of ports before verdicts) (counts_of ports after more)
        ≡ counts_of ports (before + after) (verdicts ++ more) }
{}
