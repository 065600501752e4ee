//! A reader: it enters the value that was published last, looks at it, and leaves it. It neither waits nor takes
//! memory.
ghost use Rattle.std.specs.Prelude.{◌≡◌, ◌<◌, true, false, []};
ghost use Rattle.std.specs.Arc.{arc_value};
ghost use Rattle.live_value.specs.Lanes.{IsSized, doing};
ghost use Rattle.live_value.specs.Pasts.{IsLater};
ghost use Rattle.live_value.specs.declared.lane.Role.TheVariants.{Waits};

use crate::lane::{End, Enters, Lane, Leaves};
use std::alloc::Global;
use std::marker::Model;
use std::sync::Arc;

/// A reader of one writer's values. Contracts see the values that it has seen published (`seen`), and whether it has
/// entered the last of them (`inside`).
#[derive(Drop)]
pub struct Reader<T: Drop> {
    lane: Arc<Lane<T>, Global>,
    end: End<T>,
    side: u64,
    held: Option<Arc<T, Global>>,
}

impl<T: Drop> Model for Reader<T> {
    ghost use Rattle.std.specs.Arc.{arc_value};
    ghost use Rattle.live_value.specs.Lanes.{Glance, IsReader, is_some};

    ghost Value = { Glance T };

    ghost view = { λ r. record { seen = r.end.me.0.past; inside = is_some r.held } };

    ghost invariant = { λ r. IsReader arc_value
        (arc_value r.lane).shared.table_id r.end.table_id r.end.me r.held r.side };
}

impl<T: Drop> Reader<T> {
    /// A reader at its end of a lane.
    pub(crate) fn at(lane: Arc<Lane<T>, Global>, end: End<T>) -> Reader<T>
        requires seated { end.table_id ≡ (arc_value lane).shared.table_id }
        requires sized { IsSized end.table_id }
        requires at { end.me ≡ (doing Waits end.me.0.past, []) }
        ensures { (result.seen ≡ end.me.0.past) × (result.inside ≡ false) }
    {
        Reader {
            lane,
            end,
            side: 0,
            held: None,
        }
    }

    /// Whether the reader has entered the value that was published last.
    #[inline]
    pub fn is_inside(&self) -> bool
        ensures { result ≡ self.now.inside }
    {
        self.held.is_some()
    }

    /// Enters the value that was published last. It is no older than any that this reader saw. Never fails and never
    /// waits. The writer can't have the value back before `leave`.
    pub fn enter(&mut self)
        requires { self.old.inside ≡ false }
        ensures inside { self.new.inside ≡ true }
        ensures later { IsLater self.new.seen self.old.seen }
    {
        let lane = &*self.lane;
        let side = lane.shared.fetch_add::<Enters>(&mut self.end, 0, 2) % 2;
        self.held = lane.shared.exchange(&mut self.end, side as usize, None);
        self.side = side;
    }

    /// The value that it has entered.
    pub fn value(&self) -> &T
        requires { self.now.inside ≡ true }
        ensures { result.now ≡ self.now.seen.latest }
    {
        match &self.held {
            Some(value) => value,
            None => unreachable!(),
        }
    }

    /// Lets the value go.
    pub fn leave(&mut self)
        requires { self.old.inside ≡ true }
        ensures outside { self.new.inside ≡ false }
        ensures seen { self.new.seen ≡ self.old.seen }
    {
        let lane = &*self.lane;
        let held = self.held.take();
        lane.shared
            .exchange(&mut self.end, self.side as usize, held);
        lane.shared.fetch_add::<Leaves>(&mut self.end, 0, 2);
    }
}
