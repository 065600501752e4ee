//! One entry of the first level or of a group, in 4 bytes.

ghost use Rattle.std.specs.Prelude.{◌≡◌, ◌≤◌, ◌<◌, ◌^◌, IfSome, IsTrue, nat_eq};
ghost use Rattle.lpm.specs.TableEntry.{entry_of, hop_of, is_group};

use crate::next_hop::{FLAG, NextHop};
use std::marker::Model;

/// The depth that marks a group: one more than the maximum.
const GROUP: u32 = 33;

/// A hop or a group's number in the low 24 bits; above them the flag, set unless there is no member; and above that the
/// depth of the member that the hop belongs to. So the result of a lookup is an entry without its depth.
#[derive(Clone, Copy)]
pub struct PackedEntry {
    word: u32,
}

impl Model for PackedEntry {
    ghost use Rattle.std.specs.Prelude.{◌≡◌};
    ghost use Rattle.lpm.specs.TableEntry.{TableEntry, entry_in, word_of};
    ghost use Rattle.std.proofs.Common.{sym};

    ghost Value = { TableEntry };

    ghost view = { λ s. entry_in s.word };

    // no member: the whole word is 0, so a lookup can test for it without unpacking the word
    ghost invariant = { λ s. s.word ≡ word_of (entry_in s.word) };

    ghost inverse = { λ entry. record { word = word_of entry } };

    ghost inverse_ok = { λ a h i. record { word = sym h i } };
}

impl PackedEntry {
    /// No member.
    pub fn none() -> PackedEntry
        ensures { result ≡ entry_of 0 0 }
    {
        PackedEntry { word: 0 }
    }

    /// The hop of a member of this depth.
    pub fn route(depth: u8, hop: u32) -> PackedEntry
        requires nonzero { 0 < depth }
        requires most { depth ≤ 32 }
        requires hop { hop < 2 ^ 24 }
        ensures { result ≡ entry_of depth hop }
    {
        // The flag is the bit below the depth.
        PackedEntry {
            word: (2 * (depth as u32) + 1) << 24 | hop,
        }
    }

    /// The group of this number.
    pub fn group(number: u32) -> PackedEntry
        requires { number < 2 ^ 24 }
        ensures { result ≡ entry_of 33 number }
    {
        PackedEntry {
            word: GROUP << 25 | FLAG | number,
        }
    }

    /// Whether there is no member.
    #[inline]
    pub fn is_none(self) -> bool
        ensures value { result ≡ nat_eq self.depth 0 }
        ensures none { IsTrue result → self ≡ entry_of 0 0 }
    {
        self.word == 0
    }

    /// Whether it names a group.
    pub fn is_group(self) -> bool
        ensures { result ≡ is_group self }
    {
        self.word >= GROUP << 25
    }

    /// The depth of the member that the hop belongs to: 0 if there is none, 33 for a group.
    pub fn depth(self) -> u8
        ensures { result ≡ self.depth }
    {
        (self.word >> 25) as u8
    }

    /// The hop, or the group's number.
    pub fn number(self) -> u32
        ensures value { result ≡ self.number }
        ensures below { result < 2 ^ 24 }
    {
        self.word & 0xff_ffff
    }

    /// The hop of the longest match, if the entry doesn't name a group.
    pub fn hop(self) -> Option<u32>
        ensures value { result ≡ hop_of self }
        ensures small { IfSome result (λ hop. hop < 2 ^ 24) }
    {
        if self.word == 0 {
            None
        } else {
            Some(self.number())
        }
    }

    /// The hop of the longest match, as a result of a burst lookup: the entry without its depth.
    pub fn next_hop(self) -> NextHop
        ensures { result ≡ hop_of self }
    {
        NextHop::of_word(self.word & (2 * FLAG - 1))
    }
}
