//! The writer: it publishes values, and gets each back once readers have the next. No call waits.
ghost use Rattle.std.specs.Prelude.{◌≡◌, false, Some, None, IfOk, IfErr, IfSome, OnOk, OnErr, IfNone};
ghost use Rattle.live_value.specs.Pasts.{followed, only};

use crate::history::History;
use crate::line::{Line, catch_up, fall_behind, sweep};
use crate::reader::Reader;
use crate::showing::Showing;
use std::alloc::{AllocError, Global};
use std::marker::Model;
use std::mem;
use std::sync::Arc;

/// The writer of a value that readers share. Contracts see the values that were published, oldest first (`seen`), and
/// the one before the last while readers may still have it (`behind`).
#[derive(Drop)]
pub struct Publisher<T: Drop> {
    alloc: Global,
    history: History<T>,
    shown: Arc<T, Global>,
    former: Option<Arc<T, Global>>,
    lines: Vec<Line<T>>,
}

impl<T: Drop> Model for Publisher<T> {
    ghost use Rattle.std.specs.Arc.{arc_value};
    ghost use Rattle.live_value.specs.Publishing.{Publishing, IsPublisher, content};

    ghost Value = { Publishing T };

    ghost view = { λ p. record { seen = p.history; behind = content arc_value p.former } };

    ghost invariant = { λ p. IsPublisher arc_value p.history p.shown p.former p.lines.items };
}

impl<T: Drop> Publisher<T> {
    /// Publishes a first value, to no reader yet. Returns `Err` only if out of memory.
    pub fn new(alloc: Global, first: T) -> Result<Publisher<T>, AllocError>
        ensures { IfOk result (λ p. (p.seen ≡ only first) × (p.behind ≡ None)) }
    {
        let history = History::new(alloc, &first)?;
        let shown = Arc::new(alloc, first)?;
        Ok(Publisher {
            alloc,
            history,
            shown,
            former: None,
            lines: Vec::new(alloc),
        })
    }

    /// What was published last.
    pub fn latest(&self) -> &T
        ensures { result.now ≡ self.now.seen.latest }
    {
        &self.shown
    }

    /// A reader that has seen all that was published. Returns `Err` only if out of memory.
    pub fn share(&mut self) -> Result<Reader<T>, AllocError>
        ensures reader { IfOk result (λ r. (r.seen ≡ self.old.seen) × (r.inside ≡ false)) }
        ensures same { self.new ≡ self.old }
    {
        sweep(&mut self.lines, &self.history, self.former.is_some());
        self.lines.reserve(1)?;
        let shown = Arc::try_clone(&self.shown)?;
        let (showing, reader) = Showing::open(self.alloc, shown, &self.history)?;
        self.lines.push_reserved(Line {
            showing,
            is_late: false,
        });
        Ok(reader)
    }

    /// Publishes a value. The next `settle` shows it to the readers. Where memory is refused, the value comes back, and
    /// nothing has changed.
    pub fn publish(&mut self, value: T) -> Result<(), T>
        requires { self.old.behind ≡ None }
        ensures ok { OnOk result ((self.new.seen ≡ followed self.old.seen value)
            × (self.new.behind ≡ Some self.old.seen.latest)) }
        ensures refused { IfErr result (λ back. back ≡ value) }
        ensures err { OnErr result (self.new ≡ self.old) }
    {
        let value = match Arc::new(self.alloc, value) {
            Ok(value) => value,
            Err(failed) => return Err(failed.value),
        };
        fall_behind(&mut self.lines, &self.history, &value);
        self.history.append(&value);
        self.former = Some(mem::replace(&mut self.shown, value));
        Ok(())
    }

    /// Shows what was published last to the readers: each takes it at its next call. Gives back the value before it
    /// once all readers have let that go. `None` where a reader is still in a call that began before: try again. Takes
    /// no memory.
    pub fn settle(&mut self) -> Option<T>
        ensures settled { IfSome result (λ value. (self.old.behind ≡ Some value) × (self.new.behind ≡ None)) }
        ensures pending { IfNone result (self.new ≡ self.old) }
        ensures seen { self.new.seen ≡ self.old.seen }
    {
        sweep(&mut self.lines, &self.history, self.former.is_some());
        let old = self.former.take()?;
        if !catch_up(&mut self.lines, &self.shown, &self.history) {
            self.former = Some(old);
            return None;
        }
        match Arc::try_unwrap(old) {
            Ok(value) => Some(value),
            Err(old) => {
                self.former = Some(old);
                None
            }
        }
    }
}
