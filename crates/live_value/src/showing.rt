//! The writer's end of a lane.
ghost use Rattle.std.specs.Prelude.{◌≡◌, false, [], IfOk};
ghost use Rattle.std.specs.Bool.{OnTrue, OnFalse};
ghost use Rattle.std.specs.Arc.{arc_value};
ghost use Rattle.live_value.specs.Lanes.{IsSized, doing, turn};
ghost use Rattle.live_value.specs.Pasts.{followed};
ghost use Rattle.live_value.specs.declared.lane.Role.TheVariants.{Opens};

use crate::history::History;
use crate::lane::{Collects, End, Lane, Parts, Shows, Takes};
use crate::reader::Reader;
use atomic_table::Table;
use std::alloc::{AllocError, Global};
use std::marker::Model;
use std::sync::Arc;

/// The table of a lane, with the value in slot 0.
fn laid<T: Drop>(
    alloc: Global,
    shown: Arc<T, Global>,
    history: &History<T>,
) -> Result<(Lane<T>, End<T>), AllocError>
    requires { history.now.latest ≡ arc_value shown }
    ensures { IfOk result (λ t. (t.1.table_id ≡ t.0.shared.table_id) × IsSized t.1.table_id
        × (t.1.me ≡ (doing Opens history.now, []))) }
{
    let mut slots = Vec::with_capacity(alloc, 2)?;
    slots.push_reserved(Some(shown));
    slots.push_reserved(None);
    match Table::new(alloc, &[0; 16], slots, history) {
        Ok(laid) => Ok(laid),
        Err(_) => Err(AllocError),
    }
}

/// What is added to the word of a lane to change the slot that is next.
fn turn_of(next: u64) -> u64
    ensures { result ≡ turn next }
{
    if next == 0 { 1 } else { u64::MAX }
}

/// What one reader is shown. Contracts see the values that were shown to it, oldest first (`seen`), and whether it may
/// still have the one before the last (`owed`).
#[derive(Drop)]
pub struct Showing<T: Drop> {
    lane: Arc<Lane<T>, Global>,
    end: End<T>,
    side: u64,
    /// What the word became when the last value was shown, while the reader had the one before it.
    awaited: Option<u64>,
}

impl<T: Drop> Model for Showing<T> {
    ghost use Rattle.std.specs.Arc.{arc_value};
    ghost use Rattle.live_value.specs.Lanes.{IsWriter, Shown, is_some};

    ghost Value = { Shown T };

    ghost view = { λ s. record { seen = s.end.me.0.past; owed = is_some s.awaited } };

    ghost invariant = { λ s. IsWriter (arc_value s.lane).shared.table_id s.end.table_id s.end.me s.awaited s.side };
}

impl<T: Drop> Showing<T> {
    /// A lane whose reader has seen all that was published, and the reader. `shown` is what was published last. Returns
    /// `Err` only if out of memory.
    pub fn open(
        alloc: Global,
        shown: Arc<T, Global>,
        history: &History<T>,
    ) -> Result<(Showing<T>, Reader<T>), AllocError>
        requires { history.now.latest ≡ arc_value shown }
        ensures writer { IfOk result (λ r. (r.0.seen ≡ history.now) × (r.0.owed ≡ false)) }
        ensures reader { IfOk result (λ r. (r.1.seen ≡ history.now) × (r.1.inside ≡ false)) }
    {
        let (table, mut end) = laid(alloc, shown, history)?;
        let lane = Arc::new(alloc, table)?;
        let theirs = Arc::try_clone(&lane)?;
        let shared = &lane.shared;
        shared.load::<Takes>(&mut end, 0);
        let reads = shared.split_seat::<Parts>(&mut end);
        let showing = Showing {
            lane,
            end,
            side: 0,
            awaited: None,
        };
        Ok((showing, Reader::at(theirs, reads)))
    }

    /// Whether the reader was dropped.
    pub fn is_left(&self) -> bool {
        Arc::strong_count(&self.lane) == 1
    }

    /// Shows the reader one more value: it takes this one at its next call.
    pub fn show(&mut self, value: Arc<T, Global>)
        requires { self.old.owed ≡ false }
        ensures { self.new.seen ≡ followed self.old.seen (arc_value value) }
    {
        let lane = &*self.lane;
        let side = self.side;
        let other = 1 - side;
        lane.shared
            .exchange(&mut self.end, other as usize, Some(value));
        let turn = turn_of(side);
        let found = lane.shared.fetch_add::<Shows>(&mut self.end, 0, turn);
        if found % 4 < 2 {
            lane.shared.exchange(&mut self.end, side as usize, None);
        } else {
            self.awaited = Some(found.wrapping_add(turn));
        }
        self.side = other;
    }

    /// Whether the reader has left the value before the last, which is then dropped here.
    pub fn collect(&mut self) -> bool
        ensures back { OnTrue result ((self.new.seen ≡ self.old.seen) × (self.new.owed ≡ false)) }
        ensures same { OnFalse result (self.new ≡ self.old) }
    {
        let Some(word) = self.awaited else {
            return true;
        };
        let lane = &*self.lane;
        let found = lane.shared.load::<Collects>(&mut self.end, 0);
        if found == word {
            return false;
        }
        let other = 1 - self.side;
        lane.shared.exchange(&mut self.end, other as usize, None);
        self.awaited = None;
        true
    }
}
