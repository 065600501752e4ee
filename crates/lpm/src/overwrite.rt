//! Writes to a range of entries.

ghost use Rattle.std.specs.Prelude.{◌≤◌, length};
ghost use Rattle.lpm.specs.Overwrite.{FillsFrom, OverwritesFrom};

use crate::packed_entry::PackedEntry;

/// Writes `entry` to each entry from `from` up to `to`, exclusive, whose depth is at most `depth`.
pub fn overwrite(entries: &mut [PackedEntry], from: usize, to: usize, depth: u8, entry: PackedEntry)
    requires ordered { from ≤ to }
    requires within { to ≤ length entries.old }
    ensures { OverwritesFrom entries.old entries.new from to depth entry }
{
    for i in from..to {
        if entries[i].depth() <= depth {
            entries[i] = entry;
        }
    }
}

/// Writes the entry to each entry from `from` up to `to`, exclusive.
pub fn fill(entries: &mut [PackedEntry], from: usize, to: usize, entry: PackedEntry)
    requires ordered { from ≤ to }
    requires within { to ≤ length entries.old }
    ensures { FillsFrom entries.old entries.new from to entry }
{
    for i in from..to {
        entries[i] = entry;
    }
}
