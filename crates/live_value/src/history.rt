//! The list of what one writer has published. It exists in the proofs alone: the table below has one word, which stays
//! 0.
ghost use Rattle.std.specs.Prelude.{◌≡◌, IfOk};
ghost use Rattle.live_value.specs.Pasts.{only, followed};

use crate::past::Past;
use atomic_table::{Play, Seat, Table, TableRule};
use std::alloc::{AllocError, Global};
use std::marker::Model;

/// Any list may be kept.
struct AnyPast;

impl<T> TableRule<T, Past<T>, T> for AnyPast {
    ghost holds = { λ _ _. Unit {0} };

    ghost first = { only };
}

/// One more value was published.
struct Appends;

impl<T> Play<T, Past<T>> for Appends {
    ghost use Rattle.live_value.specs.Pasts.{appends};

    ghost then = { appends };
}

/// What was published so far. Contracts see the list.
#[derive(Drop)]
pub struct History<T: Drop> {
    table: Table<T, Past<T>, T, AnyPast, Global>,
    seat: Seat<T, Past<T>>,
}

impl<T: Drop> Model for History<T> {
    ghost use Rattle.std.specs.Prelude.{◌≡◌};
    ghost use Rattle.live_value.specs.declared.past.Past.{Past};

    ghost Value = { Past T };

    ghost view = { λ h. h.seat.me.0 };

    ghost invariant = { λ h. (h.seat.table_id ≡ h.table.shared.table_id) × (h.table.shared.table_id.words ≡ 1) };
}

impl<T: Drop> History<T> {
    /// One value, and none before it.
    pub fn new(alloc: Global, first: &T) -> Result<History<T>, AllocError>
        ensures { IfOk result (λ h. h ≡ only first.now) }
    {
        let (table, seat) = Table::of_words(alloc, &[0], first)?;
        Ok(History { table, seat })
    }

    /// One more value was published.
    pub fn append(&mut self, value: &T)
        ensures { self.new ≡ followed self.old value.now }
    {
        let table = &self.table;
        table
            .shared
            .compare_exchange_with::<Appends>(&mut self.seat, 0, 0, 0, value);
    }
}
