//! What a deck stores for a share.
ghost use Rattle.std.specs.Prelude.{◌≡◌, ◌≢◌, ◌<◌, ◌==◌, All, IfNone, IfSome};
ghost use Rattle.std.specs.List.{list_any};
ghost use Rattle.std.specs.List.Sorted.{IsNonDecreasingBy};
ghost use Rattle.mbuf.specs.Entries.{HasIdAt};

/// The id of a share, the key of the packet it mentions, and which of the packet's bytes it shows.
#[derive(Clone, Copy)]
pub struct Entry {
    pub id: u32,
    pub packet: usize,
    pub from: usize,
    pub len: usize,
}

/// The index of the entry of `id`, by binary search. Requires: ids don't decrease from entry to entry.
pub fn place_of(entries: &[Entry], id: u32) -> Option<usize>
    requires rising { IsNonDecreasingBy (λ entry. entry.id) entries.now }
    ensures absent { IfNone result (All (λ entry. entry.id ≢ id) entries.now) }
    ensures found { IfSome result (HasIdAt id entries.now) }
{
    match entries.binary_search_by_key(&id, |entry| entry.id) {
        Ok(place) => Some(place),
        Err(_) => None,
    }
}

/// Whether an entry names this packet.
pub fn is_named(entries: &[Entry], packet: usize) -> bool
    ensures { result ≡ list_any (λ entry. entry.packet == packet) entries.now }
{
    entries.iter().any(|entry| entry.packet == packet)
}
