//! What the writer shares with one reader: two slots for the value, and a word that says which of them is the reader's.
//!
//! Bit 0 of the word is the slot that the reader takes next. The other bits count: the reader adds 2 when it takes a
//! slot and 2 when it gives it back, so bit 1 is set while it has one. The other slot is the writer's. The writer shows
//! a value by filling its slot and changing bit 0, at any time. Then the slot that was the reader's is the writer's: at
//! once if the reader had none, and otherwise when the word has changed since. So no step of either end ever fails.
ghost use Rattle.std.specs.Prelude.{◌≡◌, IfOk};

use crate::history::History;
use crate::past::Past;
use atomic_table::{Play, Seat, Split, Table, TableRule};
use std::alloc::Global;
use std::sync::Arc;

/// What a slot has: a value in several places at once, or nothing.
pub type Slot<T> = Option<Arc<T, Global>>;

/// What one end of a lane does.
pub enum Role {
    /// The lane is new, and has no reader yet.
    Opens,
    /// The lane is new, has no reader yet, and this end has the empty slot.
    Holds,
    /// The writer, with the other slot. The reader takes this one next.
    Writes(u64),
    /// The writer, with no slot. The reader takes this one next, and had the other when the word became this.
    Awaits(u64, u64),
    /// The reader, between two calls.
    Waits,
    /// The reader, with this slot.
    Reads(u64),
}

/// What one end of a lane knows. No value of it is made.
pub struct Doing<T> {
    pub role: Role,
    pub past: Past<T>,
}

/// What is true of a lane between any two steps.
pub struct OneReader;

impl<T: Drop> TableRule<Slot<T>, Doing<T>, History<T>> for OneReader {
    ghost use Rattle.std.specs.Arc.{arc_value};
    ghost use Rattle.live_value.specs.declared.lane.Role.TheVariants.{Opens};
    ghost use Rattle.live_value.specs.Lanes.{IsLane, doing};

    ghost holds = { λ _. IsLane arc_value };

    ghost first = { λ past. doing Opens past };
}

/// The writer takes the empty slot.
pub struct Takes;

impl<T> Play<Slot<T>, Doing<T>> for Takes {
    ghost use Rattle.live_value.specs.Lanes.{takes};

    ghost then = { takes };
}

/// The reader gets its end.
pub struct Parts;

impl<T> Split<Doing<T>> for Parts {
    ghost use Rattle.live_value.specs.declared.lane.Role.TheVariants.{Writes, Waits};
    ghost use Rattle.live_value.specs.Lanes.{doing};

    ghost left = { λ d. doing (Writes 0) d.past };

    ghost right = { λ d. doing Waits d.past };
}

/// The reader takes a slot.
pub struct Enters;

impl<T> Play<Slot<T>, Doing<T>> for Enters {
    ghost use Rattle.std.specs.Arc.{arc_value};
    ghost use Rattle.live_value.specs.Lanes.{enters};

    ghost then = { enters arc_value };
}

/// The reader gives it back.
pub struct Leaves;

impl<T> Play<Slot<T>, Doing<T>> for Leaves {
    ghost use Rattle.live_value.specs.Lanes.{leaves};

    ghost then = { leaves };
}

/// The writer's slot becomes the reader's next.
pub struct Shows;

impl<T> Play<Slot<T>, Doing<T>> for Shows {
    ghost use Rattle.std.specs.Arc.{arc_value};
    ghost use Rattle.live_value.specs.Lanes.{shows};

    ghost then = { shows arc_value };
}

/// The writer takes the slot that the reader has given back.
pub struct Collects;

impl<T> Play<Slot<T>, Doing<T>> for Collects {
    ghost use Rattle.live_value.specs.Lanes.{collects};

    ghost then = { collects };
}

pub type Lane<T> = Table<Slot<T>, Doing<T>, History<T>, OneReader, Global>;

/// One end of a lane.
pub type End<T> = Seat<Slot<T>, Doing<T>>;
