//! Peeks at items that are plain words: a put is finished from a slice, and a take shows its words in one.
ghost use Rattle.std.specs.Prelude.{◌≡◌, ◌<◌, ◌++◌, ℕ, drop, length, IfOk, IfErr};
ghost use Rattle.geom.specs.declared.plan.Mode.TheVariants.{Hts};
ghost use Rattle.geom.specs.declared.plan.Side.TheVariants.{Take};
ghost use Rattle.fabric.specs.Hands.{HasPut, HasTaken, IsHandOf, OnRing, RefusesPut, RefusesTake, SamePut, SameTake};
ghost use Rattle.fabric.specs.Hands.{rings_of, take_fabric, take_left, take_span, take_view, view};
ghost use Rattle.fabric.specs.Starts.{Starts};
ghost use Rattle.fabric.specs.Refused.{IsRefused};
ghost use Rattle.fabric.specs.declared.hand.SettleFault.TheVariants.{BadCount, NotYet};

use crate::peek::{PeekPut, PeekTakeLent};
use burst::Word;
use fabric::{Fabric, Front, Hand, SettleFault, StartFault, Stored, Words};
use geom::How;

/// Tries once to reserve words: by bulk as many as a slice has places, by burst at most so many. They are copied to the
/// front of the slice, and stay queued; the places after them are as they were. Requires: the take side is
/// head/tail-sync. Errors: those of `Fabric::try_start_take_into`; the hand comes back, and the slice is unchanged. No
/// memory; at most three steps on words.
pub fn peek_take_slice<'f, T: Word, const N: usize, S: Stored<T>>(
    f: &'f Fabric<T, N, S>,
    hand: Hand<T, S>,
    ring: usize,
    how: How,
    into: &mut [T],
) -> Result<PeekTakeLent<'f, T, N, S>, (Hand<T, S>, StartFault)>
    requires hand { IsHandOf f.now hand }
    requires ring { ring < length (rings_of f.now) }
    requires hts { OnRing f.now ring (λ plan. plan.take ≡ Hts) }
    ensures started { IfOk result (λ p. (take_fabric p.span ≡ f.now) × ((take_span p.span).ring ≡ ring)
        × OnRing f.now ring (λ plan. Starts T.numbers how (length into.old) ring Take plan (view hand)
        (take_span p.span).start (take_span p.span).count (take_left p.span) (take_view p.span).shown
        (take_view p.span))) }
    ensures copied { IfOk result
        (λ p. into.new ≡ (take_view p.span).shown ++ drop (length (take_view p.span).shown) into.old) }
    ensures refused { IfErr result (λ e. IsHandOf f.now e.0 × (into.new ≡ into.old)
        × OnRing f.now ring (λ plan. IsRefused T.numbers N how (length into.old) ring Take plan
        (view hand) (view e.0) e.1)) }
{
    let n = into.len();
    let mut front = Front {
        words: into,
        count: 0,
    };
    match f.try_start_take_into(hand, ring, n, how, &mut front) {
        Ok(span) => Ok(PeekTakeLent { span }),
        Err((hand, fault)) => Err((hand, fault)),
    }
}

impl<'f, T: Word, const N: usize, S: Stored<T>> PeekPut<'f, T, N, S> {
    /// Puts the words of a slice at the first positions, and gives up the others. At a refusal the peek stays open. No
    /// memory; one step on a word.
    ///
    /// Errors, in the order of the tests: `BadCount` if there are more words than positions; `NotYours`.
    pub fn finish_slice(
        self,
        items: &[T],
    ) -> Result<Hand<T, S>, (PeekPut<'f, T, N, S>, SettleFault)>
        ensures done { IfOk result (λ h. HasPut self.entry.span items.now h) }
        ensures refused { IfErr result (λ e. SamePut self.entry.span e.0.span
            × RefusesPut T.numbers self.entry.span items.now e.0.span e.1) }
        ensures named { IfErr result (λ e. (x : ℕ) → e.1 ≡ NotYet x → ⊥) }
    {
        match self.span.try_settle_from(&mut Words { words: items }) {
            Ok(hand) => Ok(hand),
            Err((span, fault)) => Err((PeekPut { span }, fault)),
        }
    }
}

impl<'f, T: Word, const N: usize, S: Stored<T>> PeekTakeLent<'f, T, N, S> {
    /// Takes the first `k` words; the others are queued again. At a refusal the peek stays open. Requires: these are
    /// the words that the start copied, the first `count` of its slice. No memory; one step on a word.
    ///
    /// Errors: `BadCount` if `k` is above the count.
    pub fn finish_slice(
        self,
        k: usize,
        items: &[T],
    ) -> Result<Hand<T, S>, (PeekTakeLent<'f, T, N, S>, SettleFault)>
        requires shows { items.now ≡ (take_view self.span).shown }
        ensures done { IfOk result (λ h. HasTaken self.entry.span k items.now h) }
        ensures refused { IfErr result (λ e. SameTake self.entry.span e.0.span
            × RefusesTake T.numbers self.entry.span k e.0.span e.1) }
        ensures named { IfErr result (λ e. e.1 ≡ BadCount) }
    {
        match self.span.try_settle_into(k, &mut Words { words: items }) {
            Ok(hand) => Ok(hand),
            Err((span, fault)) => Err((PeekTakeLent { span }, fault)),
        }
    }

    /// Takes nothing: all words are queued again. Requires: these are the words that the start copied, the first
    /// `count` of its slice. No memory; one step on a word.
    pub fn abort_slice(self, items: &[T]) -> Hand<T, S>
        requires shows { items.now ≡ (take_view self.span).shown }
        ensures { HasTaken self.entry.span 0 items.now result }
    {
        match self.span.try_settle_into(0, &mut Words { words: items }) {
            Ok(hand) => hand,
            Err(_) => unreachable!(),
        }
    }
}
