//! One result of a burst lookup, in 4 bytes.

ghost use Rattle.std.specs.Prelude.{◌≡◌, ◌<◌, ◌^◌, None, IfSome};
ghost use Rattle.lpm.specs.NextHop.{hop_in_word, word_of_hop};

use std::marker::Model;

/// The flag above the hop: set if there is a hop.
pub const FLAG: u32 = 1 << 24;

/// The result of a lookup: a next hop, or none. Contracts see the `Option` that `hop` returns. Two of them are equal if
/// their hops are.
#[derive(Clone, Copy, Debug, PartialEq, Eq)]
pub struct NextHop {
    word: u32,
}

impl Model for NextHop {
    ghost use Rattle.std.specs.Prelude.{◌≡◌, ℕ, Option};
    ghost use Rattle.lpm.specs.NextHop.{hop_in_word, word_of_hop};
    ghost use Rattle.std.proofs.Common.{sym};

    ghost Value = { Option ℕ };

    ghost view = { λ n. hop_in_word n.word };

    ghost invariant = { λ n. n.word ≡ word_of_hop (hop_in_word n.word) };

    ghost inverse = { λ answer. record { word = word_of_hop answer } };

    ghost inverse_ok = { λ a h i. record { word = sym h i } };
}

impl NextHop {
    /// No hop.
    pub fn none() -> NextHop
        ensures { result ≡ None }
    {
        NextHop { word: 0 }
    }

    /// The result that has this word.
    pub(crate) fn of_word(word: u32) -> NextHop
        requires { word ≡ word_of_hop (hop_in_word word) }
        ensures { result ≡ hop_in_word word }
    {
        NextHop { word }
    }

    /// The hop, which is below 2^24, if there is one.
    #[inline]
    pub fn hop(self) -> Option<u32>
        ensures value { result ≡ self }
        ensures small { IfSome result (λ hop. hop < 2 ^ 24) }
    {
        if self.word == 0 {
            None
        } else {
            Some(self.word & (FLAG - 1))
        }
    }
}
