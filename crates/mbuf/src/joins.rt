//! Linking segments to one packet, and taking them off.
ghost use Rattle.std.specs.Prelude.{◌≡◌, ◌+◌, ◌<◌, ◌≤◌, ◌++◌, ◌↔◌, length, IsSome, IsErr, IfOk, IfErr};
ghost use Rattle.mbuf.specs.Chain.{numbers_of, bytes_of, fresh_of, singles};
ghost use Rattle.mbuf.specs.Links.{rest_of};
ghost use Rattle.burst.specs.Numbers.{AreDistinct};

use crate::chain::{Chain, MAX_SEGMENTS};
use crate::fault::ChainFault;
use burst::Burst;

impl Chain {
    /// Links the segments of `other` after those of `self`. Requires: the two have no number in common.
    ///
    /// Errors: 4 `TooManySegments` if they have more than 64 segments together; both are handed back.
    pub fn chain(mut self, other: Chain) -> Result<Chain, (Chain, Chain, ChainFault)>
        requires apart { AreDistinct (numbers_of self ++ numbers_of other) }
        ensures done { IfOk result (λ whole. whole ≡ self ++ other) }
        ensures packet { IfOk result (λ whole. bytes_of whole ≡ bytes_of self ++ bytes_of other) }
        ensures refused { IsErr result ↔ (64 < length self + length other) }
        ensures unchanged { IfErr result (λ back. back ≡ (self, other, ChainFault.TooManySegments)) }
    {
        if self.segments + other.segments > MAX_SEGMENTS {
            return Err((self, other, ChainFault::TooManySegments));
        }
        let Chain {
            first,
            len,
            segments,
        } = other;
        self.first.join(first);
        self.len += len;
        self.segments += segments;
        Ok(self)
    }

    /// Takes the first segment off the others, if there are others.
    pub fn take_first(self) -> (Chain, Option<Chain>)
        ensures first { length result.0 ≡ 1 }
        ensures whole { result.0 ++ rest_of result.1 ≡ self }
        ensures packet { bytes_of result.0 ++ bytes_of (rest_of result.1) ≡ bytes_of self }
        ensures more { IsSome result.1 ↔ (1 < length self) }
    {
        if self.segments == 1 {
            return (self, None);
        }
        let Chain {
            mut first,
            len,
            segments,
        } = self;
        let first_len = first.first_len() as u32;
        let Some(next) = first.take_next() else {
            unreachable!();
        };
        let alone = Chain {
            first,
            len: first_len,
            segments: 1,
        };
        let rest = Chain {
            first: next,
            len: len - first_len,
            segments: segments - 1,
        };
        (alone, Some(rest))
    }

    /// Appends each segment to `into` as a chain of its own, fresh, in order. Requires: there is room for all of them.
    pub fn take_apart<const N: usize>(mut self, into: &mut Burst<Chain, N>)
        requires room { length into.old + length self ≤ N }
        ensures { into.new ≡ into.old ++ singles (fresh_of self) }
    {
        self.reset();
        let mut rest = Some(self);
        while let Some(chain) = rest {
            let (first, others) = chain.take_first();
            into.push(first);
            rest = others;
        }
    }
}
