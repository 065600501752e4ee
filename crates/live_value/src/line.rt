//! The readers' lanes, and which of them are late: what was published last isn't shown to them yet.
ghost use Rattle.std.specs.Prelude.{◌≡◌, true, false, All, IsTrue};
ghost use Rattle.std.specs.Arc.{arc_value};
ghost use Rattle.live_value.specs.Pasts.{followed};
ghost use Rattle.live_value.specs.Lines.{IsDone, IsShown};

use crate::history::History;
use crate::showing::Showing;
use std::alloc::Global;
use std::sync::Arc;

/// One reader's lane.
#[derive(Drop)]
pub struct Line<T: Drop> {
    pub showing: Showing<T>,
    pub is_late: bool,
}

impl<T: Drop> Line<T> {
    /// Shows the reader what was published last, if it isn't shown yet. Returns whether the value before it is back.
    fn catch_up(&mut self, shown: &Arc<T, Global>, history: &History<T>) -> bool
        requires shown { history.now.latest ≡ arc_value shown.now }
        requires was { IsShown history.now true self.old }
        ensures line { IsShown history.now true self.new }
        ensures done { IsTrue result → IsDone self.new }
    {
        if self.is_late {
            let Ok(value) = Arc::try_clone(shown) else {
                return false;
            };
            self.showing.show(value);
            self.is_late = false;
        }
        self.showing.collect()
    }
}

/// Shows each reader what was published last, if it isn't shown yet. Returns whether the value before it is back from
/// all readers.
pub fn catch_up<T: Drop>(
    lines: &mut [Line<T>],
    shown: &Arc<T, Global>,
    history: &History<T>,
) -> bool
    requires shown { history.now.latest ≡ arc_value shown.now }
    requires was { All (IsShown history.now true) lines.old }
    ensures lines { All (IsShown history.now true) lines.new }
    ensures done { IsTrue result → All IsDone lines.new }
{
    let mut done = true;
    for i in 0..lines.len() {
        let line = &mut lines[i];
        done = line.catch_up(shown, history) && done;
    }
    done
}

/// One more value was published: each line is late.
pub fn fall_behind<T: Drop>(lines: &mut [Line<T>], before: &History<T>, value: &T)
    requires { All (IsShown before.now false) lines.old }
    ensures { All (IsShown (followed before.now value.now) true) lines.new }
{
    for i in 0..lines.len() {
        lines[i].is_late = true;
    }
}

/// Drops the lines of readers that were dropped.
pub fn sweep<T: Drop>(lines: &mut Vec<Line<T>>, history: &History<T>, behind: bool)
    requires { All (IsShown history.now behind) lines.old.items }
    ensures { All (IsShown history.now behind) lines.new.items }
{
    let mut i = 0;
    while i < lines.len() {
        if lines[i].showing.is_left() {
            lines.swap_remove(i);
        } else {
            i += 1;
        }
    }
}
