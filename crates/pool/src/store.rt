//! What a cache is made of, whatever it has: items in a list, which move, or words in an array, which are copied. What
//! goes to a ring is not here, since a method of a trait can't name a fabric: `bursts` and `words` have it.
ghost use Rattle.std.specs.Prelude.{◌≡◌, ◌+◌, ◌-◌, ◌<◌, ◌≤◌, ◌++◌, ℕ, Bool, List, [], length, take, drop, reverse, true, false};
ghost use Rattle.std.specs.Option.{is_some};
ghost use Rattle.ringcore_laws.specs.FreeRings.{AreSingle};
ghost use Rattle.ringcore_laws.specs.Moves.{Owns};
ghost use Rattle.ringcore_laws.specs.Sound.{occurrences_in};
ghost use Rattle.fabric.specs.CacheHands.{Keeps, KeepsMore, KeepsNoMore, SameCacheHand, view_of_cache_hand};
ghost use Rattle.fabric.specs.Settles.{AreNotOwnBuffers, AreOwnBuffers};
ghost use Rattle.pool_laws.specs.Hands.{KeepsIn};
ghost use Rattle.pool.specs.Asides.{AreApart, set_aside_of};
ghost use Rattle.pool.specs.Wholes.{IsWhole};

use burst::Tagged;
use fabric::{CacheHand, Hand, PutItems, Stored, TakeItems};

/// A stack of items, its newest last.
pub trait Store<T: Tagged> {
    /// The items, the oldest first.
    ghost items: { Self → List T };

    /// How many it has room for.
    ghost room: { Self → ℕ };

    /// Whether it may have the buffers of a pool of so many.
    ghost reach: { Self → ℕ → Bool };

    /// Whether the hand sets the buffers of the items aside. If not, the stack itself knows which buffers it has.
    ghost aside: { Bool };

    /// How many items.
    fn len(&self) -> usize
        ensures value { result ≡ length (items self.now) }
        ensures fits { result ≤ room self.now };

    /// Moves a hand with this cache out of its place, as the whole hand.
    fn release<S: Stored<T>>(&self, from: &mut Option<CacheHand<T, S>>, to: &mut Option<Hand<T, S>>)
        requires here { is_some from.old ≡ true }
        requires kept { KeepsIn T.numbers from.old (set_aside_of aside (items self.now)) }
        ensures { IsWhole from.old to.new };

    /// Sets the buffers of the items aside, as `CacheHand::set_aside` does, where the hand does so.
    fn set_aside<S: Stored<T>>(&self, cache_hand: &mut CacheHand<T, S>) -> bool
        ensures same { SameCacheHand cache_hand.old cache_hand.new }
        ensures kept { result ≡ true
            → KeepsMore T.numbers cache_hand.old (set_aside_of aside (items self.now)) cache_hand.new }
        ensures other { result ≡ false
            → KeepsNoMore T.numbers cache_hand.old (set_aside_of aside (items self.now)) cache_hand.new };

    /// Whether an item whose buffer is set aside carries this one. Requires: each item carries one.
    fn one_carries(&self, b: u32) -> bool
        requires single { AreSingle T.numbers (items self.now) }
        ensures found { result ≡ true → 0 < occurrences_in T.numbers b (set_aside_of aside (items self.now)) }
        ensures none { result ≡ false → occurrences_in T.numbers b (set_aside_of aside (items self.now)) ≡ 0 };
}

/// A stack whose items go to lists of this kind.
pub trait Gives<T: Tagged, I: TakeItems<T>>: Store<T> {
    /// Moves the newest `n` items into an empty list, the newest first; they are no longer set aside.
    fn give<S: Stored<T>>(&mut self, cache_hand: &mut CacheHand<T, S>, n: usize, into: &mut I)
        requires kept { Keeps T.numbers cache_hand.old (set_aside_of Self.aside (Self.items self.old)) }
        requires at_most { n ≤ length (Self.items self.old) }
        requires empty { I.items into.old ≡ [] }
        requires fits { n ≤ I.room into.old }
        ensures same { SameCacheHand cache_hand.old cache_hand.new }
        ensures room { Self.room self.new ≡ Self.room self.old }
        ensures reach { (n : ℕ) → Self.reach self.new n ≡ Self.reach self.old n }
        ensures kept { Keeps T.numbers cache_hand.new (set_aside_of Self.aside (Self.items self.new)) }
        ensures left { Self.items self.new ≡ take (length (Self.items self.old) - n) (Self.items self.old) }
        ensures moved { I.items into.new ≡ reverse (drop (length (Self.items self.old) - n) (Self.items self.old)) }
        ensures beside { I.beside into.old into.new };
}

/// A stack that gets the items of lists of this kind.
pub trait Accepts<T: Tagged, I: PutItems<T>>: Store<T> {
    /// Pushes the items of a list, in order, if the hand may put them and those of the stack together on a free ring;
    /// otherwise nothing changes. Requires: there is room for them.
    fn admit<S: Stored<T>>(&mut self, cache_hand: &mut CacheHand<T, S>, list: &mut I) -> bool
        requires kept { Keeps T.numbers cache_hand.old (set_aside_of Self.aside (Self.items self.old)) }
        requires own { AreOwnBuffers T.numbers (view_of_cache_hand cache_hand.old) (Self.items self.old) }
        requires reach { Self.reach self.old (view_of_cache_hand cache_hand.old).pool ≡ true }
        requires room { length (Self.items self.old) + length (I.items list.old) ≤ Self.room self.old }
        ensures same { SameCacheHand cache_hand.old cache_hand.new }
        ensures room { Self.room self.new ≡ Self.room self.old }
        ensures reach { (n : ℕ) → Self.reach self.new n ≡ Self.reach self.old n }
        ensures kept { Keeps T.numbers cache_hand.new (set_aside_of Self.aside (Self.items self.new)) }
        ensures own { Owns T.numbers (view_of_cache_hand cache_hand.new).party (Self.items self.new) }
        ensures single { AreSingle T.numbers (Self.items self.new) }
        ensures yours { result ≡ true
            → AreOwnBuffers T.numbers (view_of_cache_hand cache_hand.old) (Self.items self.old ++ I.items list.old) }
        ensures other { result ≡ false → AreNotOwnBuffers T.numbers (view_of_cache_hand cache_hand.old)
            (Self.items self.old ++ I.items list.old) }
        ensures moved { result ≡ true → (Self.items self.new ≡ Self.items self.old ++ I.items list.old)
            × (I.items list.new ≡ I.left (I.items list.old) 0) }
        ensures back { result ≡ false
            → (Self.items self.new ≡ Self.items self.old) × (I.items list.new ≡ I.items list.old) };

    /// Whether an item of a list carries a buffer that the stack has and that isn't set aside.
    fn has_any(&self, list: &I) -> bool
        requires single { AreSingle T.numbers (Self.items self.now) }
        ensures found { result ≡ true → (b : ℕ) × (0 < occurrences_in T.numbers b (I.items list.now))
            × (0 < occurrences_in T.numbers b (Self.items self.now)) }
        ensures none { result ≡ false
            → AreApart T.numbers Self.aside (Self.items self.now) (I.items list.now) };
}
