//! Callers of caches in front of a free ring: of items that move, and of words that are copied.
ghost use Rattle.std.specs.Prelude.{◌≡◌, [], IfSome, true};
ghost use Rattle.pool.specs.Locals.{IsLocalOf, cache_of};

use arrayvec::ArrayVec;
use burst::{Burst, Slot, Tagged, Word};
use fabric::Fabric;
use pool::{Local, LocalWords};
use std::sync::Wait;

/// The maximum number of items of a call: a cache needs 64 places and its threshold.
pub const MAX_ITEMS: usize = 72;

/// A free buffer: its number, which is a plain word.
#[derive(Drop, Clone, Copy)]
pub struct Number {
    pub value: u32,
}

impl Tagged for Number {
    ghost use Rattle.std.specs.Prelude.{[], ◌∷◌};

    ghost numbers = { λ n. n.value ∷ [] };

    fn tags(&self, out: &mut ArrayVec<u32, 64>) {
        out.push(self.value);
    }
}

impl Word for Number {
    fn blank() -> Number {
        Number { value: 0 }
    }
}

/// Gets three buffers into a list and puts them back from it, and then puts all that is cached on the free ring.
/// Returns whether each call did so.
pub fn get_and_put<R: Wait>(
    rt: &R,
    f: &Fabric<Number, MAX_ITEMS>,
    local: &mut Local<Number, MAX_ITEMS>,
) -> bool
    requires local { IsLocalOf f.now local.old }
    ensures local { IsLocalOf f.now local.new }
    ensures flushed { result ≡ true → cache_of local.new ≡ [] }
{
    let mut list = Burst::new();
    if local.get_into(rt, f, 3, &mut list).is_err() || list.len() > 64 {
        return false;
    }
    local.put_from(rt, f, &mut list).is_ok() && local.flush(rt, f).is_ok()
}

/// Gets the numbers of three buffers, which are copied, and puts them back. Then puts all that is cached on the free
/// ring. Returns the three numbers, or `None` if a call was refused.
pub fn get_and_put_words<R: Wait>(
    rt: &R,
    f: &Fabric<Number, MAX_ITEMS, Slot<Number>>,
    local: &mut LocalWords<Number, MAX_ITEMS, Slot<Number>>,
) -> Option<[Number; 3]>
    requires local { IsLocalOf f.now local.old }
    ensures local { IsLocalOf f.now local.new }
    ensures flushed { IfSome result (λ _. cache_of local.new ≡ []) }
{
    let mut got = [Number { value: 0 }; 3];
    if local.get_into_slice(rt, f, &mut got[..]).is_err() {
        return None;
    }
    if local.put_from_slice(rt, f, &got[..]).is_err() || local.flush(rt, f).is_err() {
        return None;
    }
    Some(got)
}
