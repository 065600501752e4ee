//! The lock: its value is taken out, and put back.
ghost use Rattle.std.specs.Prelude.{◌≡◌, IfOk, IfErr, IfSome};

use crate::keyed_lock::rule::{GivesBack, Keeps, Kept, Takes};
use atomic_table::{Refused, Seat, Table};
use std::alloc::{AllocFailed, Global};
use std::marker::Model;

/// A value that several threads share through a `&`, each for a moment. A thread tries to take the value, and never
/// waits for it. `P` says what is always true of the value and of the key that the lock was made with. Contracts see
/// the key (`key`), and which lock it is (`id`).
#[derive(Drop)]
pub struct KeyedLock<T: Drop, K, P: Keeps<T, K>> {
    /// One word, which is 0 while the value is in the slot, and 1 while a thread has it.
    table: Table<Option<T>, K, K, Kept<P>, Global>,
}

impl<T: Drop, K, P: Keeps<T, K>> Model for KeyedLock<T, K, P> {
    ghost use Rattle.std.specs.Prelude.{◌≡◌};
    ghost use Rattle.ringapi.specs.Locks.{Lock};

    ghost Value = { Lock K };

    ghost view = { λ l. record { key = l.table.shared.key; id = l.table.shared.table_id } };

    ghost invariant = { λ l. (l.table.shared.table_id.words ≡ 1) × (l.table.shared.table_id.slots ≡ 1) };
}

/// The right to put a value back into a lock. Contracts see which lock that is.
#[derive(Drop)]
#[must_use]
pub struct Ticket<T: Drop, K> {
    seat: Seat<Option<T>, K>,
}

impl<T: Drop, K> Model for Ticket<T, K> {
    ghost use Rattle.std.specs.Prelude.{◌≡◌, [], ◌∷◌, None};
    ghost use Rattle.atomic_table.specs.Seated.{TableId};

    ghost Value = { TableId };

    ghost view = { λ t. t.seat.table_id };

    ghost invariant = { λ t. t.seat.me.1 ≡ (0, None) ∷ [] };
}

/// The value of a lock, taken out, and the right to put it back. If that is dropped, the lock stays taken for good.
#[derive(Drop)]
#[must_use]
pub struct Taken<T: Drop, K> {
    pub value: T,
    pub ticket: Ticket<T, K>,
}

impl<T: Drop, K, P: Keeps<T, K>> KeyedLock<T, K, P> {
    /// A lock with this value in it. Takes memory. Where that is refused, the value comes back.
    pub fn new(alloc: Global, value: T, about: &K) -> Result<KeyedLock<T, K, P>, AllocFailed<T>>
        requires { P.holds about.now value }
        ensures key { IfOk result (λ lock. lock.key ≡ about.now) }
        ensures err { IfErr result (λ failed. failed.value ≡ value) }
    {
        let Ok(mut slots) = Vec::with_capacity(alloc, 1) else {
            return Err(AllocFailed { value });
        };
        slots.push_reserved(Some(value));
        match Table::new(alloc, &[0], slots, about) {
            Ok((table, _)) => Ok(KeyedLock { table }),
            Err(Refused { mut slots }) => match slots.pop() {
                Some(Some(value)) => Err(AllocFailed { value }),
                _ => unreachable!(),
            },
        }
    }

    /// Takes the value out, if no other thread has it. Takes no memory.
    #[inline]
    pub fn try_take(&self) -> Option<Taken<T, K>>
        ensures kept { IfSome result (λ taken. P.holds self.now.key taken.value) }
        ensures lock { IfSome result (λ taken. taken.ticket ≡ self.now.id) }
    {
        let (found, mut seat) = self.table.shared.swap_new_seat::<Takes<P>>(0, 1);
        if found != 0 {
            return None;
        }
        match self.table.shared.exchange(&mut seat, 0, None) {
            Some(value) => Some(Taken {
                value,
                ticket: Ticket { seat },
            }),
            None => unreachable!(),
        }
    }

    /// Puts a value back: the next thread that tries finds it. Takes no memory.
    #[inline]
    pub fn put_back(&self, taken: Taken<T, K>)
        requires lock { taken.ticket ≡ self.now.id }
        requires kept { P.holds self.now.key taken.value }
    {
        let Taken { value, ticket } = taken;
        let Ticket { mut seat } = ticket;
        let None = self.table.shared.exchange(&mut seat, 0, Some(value)) else {
            unreachable!()
        };
        self.table.shared.store::<GivesBack>(&mut seat, 0, 0);
    }
}
