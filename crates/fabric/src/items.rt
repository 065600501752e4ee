//! Lists whose items go to the slots of a ring and come from there: bursts, and the words of a slice.
ghost use Rattle.std.specs.Prelude.{◌≡◌, ◌+◌, ◌-◌, ◌<◌, ◌≤◌, ◌==◌, ◌++◌, ◌^◌, ℕ, List, [], length, map, replicate, take, drop};
ghost use Rattle.std.specs.Prelude.{None, Some, true, false};
ghost use Rattle.std.specs.List.{flat_map, list_all};
ghost use Rattle.burst.specs.Items.{somes};
ghost use Rattle.fabric_laws.specs.Kinds.{run};
ghost use Rattle.fabric.specs.Owned.{all_there, cleared, marked};
ghost use Rattle.fabric.specs.Rings.{IsSameSeat};
ghost use Rattle.fabric.specs.Shapes.{shape_slot};
ghost use Rattle.fabric.specs.Slots.{HoldsItems, values};

mod bursts;
pub(crate) mod front;
pub(crate) mod words;

use crate::hand::owned::Owned;
use crate::plan::Shape;
use crate::slots::Slots;
use crate::stored::{Cell, Stored};
use atomic_table::Seat;
use burst::Tagged;
use fabric_laws::View;

/// A list of items that a call moves to or from the slots of a ring.
pub trait Items<T: Tagged> {
    /// The items.
    ghost items: { Self → List T };

    /// How many it can have.
    ghost most: { ℕ };

    /// What a list of these items is once those after the first k were moved into slots: words are copied.
    ghost left: { List T → ℕ → List T };

    /// What of a list stays as it is while items go there and back: the places of a slice that have none.
    ghost beside: { Self → Self → Type 0 };

    /// How many items.
    fn len(&self) -> usize
        ensures value { result ≡ length (items self.now) }
        ensures fits { result ≤ most };

    /// Marks the buffers of the first `n` items.
    fn own(&self, n: usize, owned: &mut Owned)
        requires { n ≤ length (items self.now) }
        ensures { owned.new ≡ marked owned.old (flat_map T.numbers (take n (items self.now))) };

    /// Moves the items after the first `k` into as many slots from the position `start` on, which hold nothing and are
    /// the first of the row. They are its last ones afterwards.
    fn fill<S: Stored<T>>(
        &mut self,
        shared: &Slots<T, S>,
        shape: &Shape,
        seat: &mut Seat<Cell<T, S>, View<T>>,
        start: u64,
        k: usize,
    )
        requires table { seat.old.table_id ≡ shared.now.table_id }
        requires fits { k ≤ length (items self.old) }
        requires low { start + (length (items self.old) - k) < 2 ^ 63 }
        requires held { seat.old.me.1 ≡ run (shape_slot shape.now) start
            (replicate (length (items self.old) - k) None) ++ drop (length (items self.old) - k) seat.old.me.1 }
        ensures seat { IsSameSeat seat.old seat.new × (seat.new.me.0 ≡ seat.old.me.0) }
        ensures filled { seat.new.me.1 ≡ drop (length (items self.old) - k) seat.old.me.1
            ++ run (shape_slot shape.now) start (map Some (drop k (items self.old))) }
        ensures left { items self.new ≡ left (items self.old) k }
        // the first k stay, and so all do where k is their number
        ensures front { take k (items self.new) ≡ take k (items self.old) }
        ensures whole { k ≡ length (items self.old) → items self.new ≡ items self.old }
        ensures beside { (before : Self) → beside before self.old → beside before self.new };

    /// A list none of whose items were moved is as it was.
    ghost whole: { (xs : List T) → left xs (length xs) ≡ xs };
}

/// A list whose items a call puts on a ring.
pub trait PutItems<T: Tagged>: Items<T> {
    /// What is left of a list of these items once its first k were put.
    ghost after: { List T → ℕ → List T };

    /// What is put aside of a list, and the list that it makes with what was not.
    type Rest: Drop;

    ghost joined: { List T → Self.Rest → List T };

    /// Puts the items after the first `k` aside.
    fn part(&mut self, k: usize) -> Self::Rest
        requires { k ≤ length (Self.items self.old) }
        ensures front { Self.items self.new ≡ take k (Self.items self.old) }
        ensures back { joined (Self.items self.new) result ≡ Self.items self.old }
        ensures moved { joined (Self.left (Self.items self.new) 0) result ≡ after (Self.items self.old) k }
        ensures fits { length (after (Self.items self.old) k) ≤ length (Self.items self.old) };

    /// Takes them back.
    fn rejoin(&mut self, rest: Self::Rest)
        requires { length (joined (Self.items self.old) rest) ≤ Self.most }
        ensures { Self.items self.new ≡ joined (Self.items self.old) rest };

    /// Clears the buffers of the items if each is marked and none occurs twice and, on a free ring, if each item
    /// carries exactly one; otherwise nothing changes.
    fn disown(&self, free: bool, owned: &mut Owned) -> bool
        ensures mine { result ≡ true → (owned.new ≡ cleared owned.old (flat_map T.numbers (Self.items self.now)))
            × (all_there owned.old (flat_map T.numbers (Self.items self.now)) ≡ true)
            × (free ≡ true → list_all (λ x. length (T.numbers x) == 1) (Self.items self.now) ≡ true) }
        ensures kept { result ≡ false → owned.new ≡ owned.old }
        ensures other { result ≡ false → all_there owned.old (flat_map T.numbers (Self.items self.now)) ≡ true
            → (free ≡ true) × (list_all (λ x. length (T.numbers x) == 1) (Self.items self.now) ≡ false) };

    /// Takes the items back that `fill` moved into `count` slots from the position `start` on, which are all of the
    /// row. They are empty afterwards.
    fn refill<S: Stored<T>>(
        &mut self,
        shared: &Slots<T, S>,
        shape: &Shape,
        seat: &mut Seat<Cell<T, S>, View<T>>,
        start: u64,
        count: usize,
    )
        requires table { seat.old.table_id ≡ shared.now.table_id }
        requires low { start + count < 2 ^ 63 }
        requires fits { count ≤ Self.most }
        requires packed { values seat.old.me.1 ≡ map Some (somes (values seat.old.me.1)) }
        requires gone { Self.items self.old ≡ Self.left (somes (values seat.old.me.1)) 0 }
        requires held { (length (values seat.old.me.1) ≡ count)
            × (seat.old.me.1 ≡ run (shape_slot shape.now) start (values seat.old.me.1)) }
        ensures seat { IsSameSeat seat.old seat.new × (seat.new.me.0 ≡ seat.old.me.0) }
        ensures emptied { seat.new.me.1 ≡ run (shape_slot shape.now) start (replicate count None) }
        ensures items { Self.items self.new ≡ somes (values seat.old.me.1) };

    /// A put of all items leaves what a move of all into slots does.
    ghost all: { (xs : List T) → after xs (length xs) ≡ Self.left xs 0 };
}

/// A list that the items of a take go to.
pub trait TakeItems<T: Tagged>: Items<T> {
    /// How many items there is room for.
    ghost room: { Self → ℕ };

    /// Moves the items out of `count` slots from the position `start` on, which are the first of the row, into an empty
    /// list. They are the row's last ones afterwards, and hold nothing.
    fn take_out<S: Stored<T>>(
        &mut self,
        shared: &Slots<T, S>,
        shape: &Shape,
        seat: &mut Seat<Cell<T, S>, View<T>>,
        start: u64,
        count: usize,
    )
        requires table { seat.old.table_id ≡ shared.now.table_id }
        requires low { start + count < 2 ^ 63 }
        requires blank { Self.items self.old ≡ [] }
        requires fits { count ≤ room self.old }
        requires held { HoldsItems (shape_slot shape.now) start count seat.old.me.1 }
        ensures seat { IsSameSeat seat.old seat.new × (seat.new.me.0 ≡ seat.old.me.0) }
        ensures emptied { seat.new.me.1 ≡ drop count seat.old.me.1
            ++ run (shape_slot shape.now) start (replicate count None) }
        ensures items { seat.old.me.1 ≡ run (shape_slot shape.now) start (map Some (Self.items self.new))
            ++ drop count seat.old.me.1 }
        ensures long { length (Self.items self.new) ≡ count }
        ensures beside { Self.beside self.old self.new };
}
