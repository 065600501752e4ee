//! A law of runs, the contract of a function without a body.
ghost use Rattle.std.specs.Prelude.{◌≡◌, ℕ, List, Some, map as mapped, slice_get};
ghost use Rattle.pcapio.specs.Counted.{told};
ghost use Rattle.pcapio.specs.declared.counted.Counted.{Counted};
ghost use Rattle.settings.specs.declared.read.Settings.{Settings};
ghost use Rattle.run_one.specs.Whole.{AreKnown, IsRun};
ghost use Rattle.run_one.specs.declared.summary.Summary.{Summary};

use std::io::Write;

/// The number of workers makes no difference: if two runs over the same known bytes with the same settings, by one
/// thread or by 1 to 16 workers each, both return a summary, it is the same one, and each port's device received the
/// same bytes, if it is known what it had received before; this holds for all ports if it is known of each.
pub fn workers_change_nothing<W: Write>()
    ensures summary { (settings : Settings) (bytes : List ℕ) (writers one many : List (Counted W)) (a b : Summary)
        → IsRun W.contents settings bytes writers one a → IsRun W.contents settings bytes writers many b
        → (a.counts ≡ b.counts) × (a.torn ≡ b.torn) }
    ensures ports { (settings : Settings) (bytes : List ℕ) (writers one many : List (Counted W)) (a b : Summary)
        → IsRun W.contents settings bytes writers one a → IsRun W.contents settings bytes writers many b
        → (q : ℕ) (d e : Counted W) (x : List ℕ) → slice_get one q ≡ Some d → slice_get many q ≡ Some e
        → slice_get (mapped (told W.contents) writers) q ≡ Some (Some x) → told W.contents d ≡ told W.contents e }
    ensures all { (settings : Settings) (bytes : List ℕ) (writers one many : List (Counted W)) (a b : Summary)
        → IsRun W.contents settings bytes writers one a → IsRun W.contents settings bytes writers many b
        → AreKnown (mapped (told W.contents) writers) → mapped (told W.contents) one ≡ mapped (told W.contents) many }
{}
