//! Rows of counts.

ghost use Rattle.std.specs.Prelude.{◌≡◌, ◌+◌, ◌<◌, ◌≤◌, ◌^◌, length, take, sum, slice_index, slice_set};
ghost use Rattle.counters.specs.Tally.{added};

/// Adds one to an entry.
pub fn raise(row: &mut [u64], i: usize)
    requires place { i < length row.old }
    requires fits { slice_index row.old i + 1 < 2 ^ 64 }
    ensures { row.new ≡ slice_set row.old i (slice_index row.old i + 1) }
{
    row[i] += 1;
}

/// Adds the first n entries of another row, entry by entry.
pub fn add_row(row: &mut [u64], other: &[u64], n: usize)
    requires here { n ≤ length row.old }
    requires there { n ≤ length other.now }
    requires fits { sum (take n row.old) + sum (take n other.now) < 2 ^ 64 }
    ensures { take n row.new ≡ added (take n row.old) (take n other.now) }
{
    for i in 0..n {
        row[i] += other[i];
    }
}
