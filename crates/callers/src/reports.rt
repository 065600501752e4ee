//! A caller: the counts are those of the verdicts, by the contracts alone.

ghost use Rattle.std.specs.Prelude.{◌≡◌, [], ◌∷◌, true};
ghost use Rattle.ipv4.specs.declared.Verdict.{Verdict};
ghost use Rattle.counters.specs.Counted.{counts_of};
ghost use Rattle.ipv4.specs.declared.Verdict.TheVariants.{Send, Drop};
ghost use Rattle.ipv4.specs.declared.Reason.TheVariants.{Expired};

use counters::Counts;
use ipv4::{Reason, Verdict};

/// The counts of a record that was sent, an oversize one, and one that was dropped.
pub fn two_verdicts() -> Counts
    ensures { result ≡ counts_of 2 1 (Send 1 true ∷ Drop Expired ∷ []) }
{
    let mut counts = Counts::new(2);
    counts.add(&Verdict::Send {
        port: 1,
        tagged: true,
    });
    counts.add_oversize();
    counts.add(&Verdict::Drop(Reason::Expired));
    counts
}
