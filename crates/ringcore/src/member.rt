//! An actor of the machine.

ghost use Rattle.std.specs.Prelude.{◌≡◌, ◌==◌, ◌<◌, ◌^◌, length};
ghost use Rattle.std.specs.List.{list_all, flat_map};
ghost use Rattle.ringcore_laws.specs.History.{tags};

use crate::places::holds_items;
use ringcore_laws::{Item, Observed, Place, Span};

/// An actor: its number, how many buffers it has, its open span and its look.
#[derive(Clone, Copy, Debug)]
pub struct Member {
    pub number: usize,
    /// How many buffers are held or cached.
    pub count: u64,
    pub span: Option<Span>,
    pub observed: Option<Observed>,
}

impl Member {
    ghost use Rattle.ringcore.specs.Entries.{may_put_all};

    /// Whether the actor may put these items, where the entry of each buffer is at its number. The entries are
    /// unchanged.
    pub fn may_put(&self, free: bool, items: &[Item], numbers: &mut [Place]) -> bool
        ensures answer { result ≡ may_put_all free self.now.number numbers.old items.now }
        ensures kept { numbers.new ≡ numbers.old }
    {
        let held = holds_items(numbers, self.number, items);
        let single = !free || are_single(items);
        held && single
    }
}

fn are_single(items: &[Item]) -> bool
    ensures { result ≡ list_all (λ x. length (tags x) == 1) items.now }
{
    items.iter().all(|x| tag_count(x) == 1)
}

/// How many buffers an item carries.
fn tag_count(item: &Item) -> usize
    ensures { result ≡ length (tags item.now) }
{
    match item {
        Item::Word(_) => 0,
        Item::Buffers(numbers) => numbers.as_slice().len(),
    }
}

/// How many buffers these items carry.
pub fn buffer_count(items: &[Item]) -> u64
    ensures { length (flat_map tags items.now) < 2 ^ 64 → result ≡ length (flat_map tags items.now) }
{
    let mut count: u64 = 0;
    for k in 0..items.len() {
        // Exact if the buffers are of a pool, as in each world that a history leaves.
        count = count.saturating_add(tag_count(&items[k]) as u64);
    }
    count
}
