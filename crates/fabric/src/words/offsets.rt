//! Which words are a ring's. It has 64 of them, of which four are used. They are 16 apart, 128 bytes: processors fetch
//! cache lines of 64 bytes in pairs, so two threads that change two words don't take a line from each other.
ghost use Rattle.std.specs.Prelude.{◌≡◌, ◌+◌, ◌*◌, ◌<◌, ℕ};
ghost use Rattle.fabric_laws.specs.Words.{own_at, settled_word_at, tail_at};

use geom::{Mode, Side};

/// How many words a ring has.
const WORDS: usize = 64;

/// The word of a ring at an offset.
pub(crate) fn word_at(ring: usize, offset: usize) -> usize
    requires ring { ring < 64 }
    requires within { offset < 64 }
    ensures { result ≡ 64 * ring + offset }
{
    WORDS * ring + offset
}

/// The word by which a side is reserved.
pub(crate) fn own_word(ring: usize, side: Side) -> usize
    requires { ring < 64 }
    ensures { result ≡ own_at ring side }
{
    word_at(ring, own_offset(side))
}

/// The tail of a multi side.
pub(crate) fn tail_word(ring: usize, side: Side) -> usize
    requires { ring < 64 }
    ensures { result ≡ tail_at ring side }
{
    word_at(ring, tail_offset(side))
}

/// Where the word by which a side is reserved lies among its ring's.
fn own_offset(side: Side) -> usize
    ensures within { result < 64 }
    ensures at { (r : ℕ) → 64 * r + result ≡ own_at r side }
{
    match side {
        Side::Put => 0,
        Side::Take => 32,
    }
}

/// Where the tail of a multi side lies.
fn tail_offset(side: Side) -> usize
    ensures within { result < 64 }
    ensures at { (r : ℕ) → 64 * r + result ≡ tail_at r side }
{
    match side {
        Side::Put => 16,
        Side::Take => 48,
    }
}

/// Where the word lies that shows how far a side is settled.
pub(crate) fn settled_offset(mode: Mode, side: Side) -> usize
    ensures within { result < 64 }
    ensures at { (r : ℕ) → 64 * r + result ≡ settled_word_at mode r side }
{
    match mode {
        Mode::Multi => tail_offset(side),
        Mode::Hts => own_offset(side),
    }
}
