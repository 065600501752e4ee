//! What a lock keeps true, and what each of its steps tells.
use atomic_table::{Play, TableRule};
use std::marker::PhantomData;

/// The fact that a lock keeps about its key and its value. The key is fixed when the lock is made.
pub trait Keeps<T, K> {
    ghost holds: { K → T → Type 0 };
}

/// What is true of a lock between any two steps, for the fact of `P`.
pub struct Kept<P> {
    fact: PhantomData<P>,
}

impl<T, K, P: Keeps<T, K>> TableRule<Option<T>, K, K> for Kept<P> {
    ghost use Rattle.ringapi.specs.Locks.{IsLock};

    ghost holds = { λ key. IsLock (P.holds key) };

    ghost first = { λ key. key };
}

/// A thread takes the slot, if it finds the word 0.
pub struct Takes<P> {
    fact: PhantomData<P>,
}

impl<T, K, P: Keeps<T, K>> Play<Option<T>, K> for Takes<P> {
    ghost use Rattle.ringapi.specs.Locks.{takes};

    ghost then = { takes P.holds };
}

/// It gives the slot back.
pub struct GivesBack;

impl<T, K> Play<Option<T>, K> for GivesBack {
    ghost use Rattle.ringapi.specs.Locks.{gives_back};

    ghost then = { gives_back };
}
