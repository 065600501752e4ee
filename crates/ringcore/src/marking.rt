//! The local steps, which touch no word: marking a buffer as cached, or as held again.

ghost use Rattle.std.specs.Prelude.{◌≡◌, if◌then◌else◌, slice_set};
ghost use Rattle.ringcore_laws.specs.declared.protocol.Place.TheVariants.{Held, Cached};
ghost use Rattle.ringcore_laws.specs.declared.protocol.Reply.TheVariants.{Seen, NotYours};
ghost use Rattle.ringcore.specs.Entries.{entry, is_cached_at, is_held_at};

use crate::places::{cached, place_at, set_place, uncached};
use ringcore_laws::{Place, Reply};

/// Marks a held buffer as cached.
pub fn stash(places: &mut [Place], actor: usize, b: u64) -> Reply
    ensures reply { result ≡ (if is_held_at actor (entry places.old b) then Seen b else NotYours) }
    ensures after { places.new
        ≡ (if is_held_at actor (entry places.old b) then slice_set places.old b (Cached actor) else places.old) }
{
    match cached(place_at(places, b), actor) {
        Some(place) => {
            set_place(places, b, place);
            Reply::Seen(b)
        }
        None => Reply::NotYours,
    }
}

/// Marks a cached buffer as held again.
pub fn unstash(places: &mut [Place], actor: usize, b: u64) -> Reply
    ensures reply { result ≡ (if is_cached_at actor (entry places.old b) then Seen b else NotYours) }
    ensures after { places.new
        ≡ (if is_cached_at actor (entry places.old b) then slice_set places.old b (Held actor) else places.old) }
{
    match uncached(place_at(places, b), actor) {
        Some(place) => {
            set_place(places, b, place);
            Reply::Seen(b)
        }
        None => Reply::NotYours,
    }
}
