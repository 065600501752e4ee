//! Where each buffer is: one entry per buffer, read and written at the buffer's number, so nothing is searched.
//!
//! Numbers that are put have to be distinct: each number that is passed is marked with the entry of a cached buffer,
//! and the marks are removed afterwards.

ghost use Rattle.std.specs.Prelude.{◌≡◌, ◌+◌, ◌<◌, ◌^◌, length, ◌∷◌, [], if◌then◌else◌, Some, None, slice_set};
ghost use Rattle.std.specs.List.{flat_map};
ghost use Rattle.ringcore_laws.specs.declared.protocol.Place.TheVariants.{Held as IsHeld, Cached as IsCached};
ghost use Rattle.ringcore_laws.specs.History.{tags};
ghost use Rattle.ringcore.specs.Entries.{IsClaimed, are_held_apart, entry, is_cached_at, is_held_at, with_each, with_items_at};

use ringcore_laws::{Item, Place};

/// Where a buffer is.
pub fn place_at(places: &[Place], b: u64) -> Place
    ensures { result ≡ entry places.now b }
{
    let k = b as usize;
    if k < places.len() {
        places[k]
    } else {
        Place::Nowhere
    }
}

/// Writes the entry of a buffer, if it has one.
pub fn set_place(places: &mut [Place], b: u64, place: Place)
    ensures { places.new ≡ slice_set places.old b place }
{
    let k = b as usize;
    if k < places.len() {
        places[k] = place;
    }
}

/// What the entry of a held buffer becomes when its actor marks it as cached.
pub fn cached(place: Place, actor: usize) -> Option<Place>
    ensures { result ≡ (if is_held_at actor place then Some (IsCached actor) else None) }
{
    if is_held_by(place, actor) {
        Some(Place::Cached(actor))
    } else {
        None
    }
}

/// What the entry of a cached buffer becomes when its actor marks it as held.
pub fn uncached(place: Place, actor: usize) -> Option<Place>
    ensures { result ≡ (if is_cached_at actor place then Some (IsHeld actor) else None) }
{
    if is_cached_by(place, actor) {
        Some(Place::Held(actor))
    } else {
        None
    }
}

fn is_held_by(place: Place, actor: usize) -> bool
    ensures { result ≡ is_held_at actor place }
{
    match place {
        Place::Held(number) => number == actor,
        _ => false,
    }
}

fn is_cached_by(place: Place, actor: usize) -> bool
    ensures { result ≡ is_cached_at actor place }
{
    match place {
        Place::Cached(number) => number == actor,
        _ => false,
    }
}

/// Writes one place to the entries of these buffers.
fn set_each(places: &mut [Place], numbers: &[u64], place: Place)
    ensures { places.new ≡ with_each places.old numbers.now place }
{
    for k in 0..numbers.len() {
        set_place(places, numbers[k], place);
    }
}

fn set_item(places: &mut [Place], item: &Item, place: Place)
    ensures { places.new ≡ with_each places.old (tags item.now) place }
{
    match item {
        Item::Word(_) => {}
        Item::Buffers(numbers) => set_each(places, numbers.as_slice(), place),
    }
}

/// The buffers of these items are held by an actor.
pub fn hold_items(places: &mut [Place], actor: usize, items: &[Item])
    ensures { places.new ≡ with_each places.old (flat_map tags items.now) (IsHeld actor) }
{
    for k in 0..items.len() {
        set_item(places, &items[k], Place::Held(actor));
    }
}

/// The buffers of these items are on a ring, those of the first item at `start`.
pub fn queue_items(places: &mut [Place], ring: usize, start: u64, items: &[Item])
    ensures { start + length items.now < 2 ^ 64 → places.new ≡ with_items_at places.old ring start items.now }
{
    for k in 0..items.len() {
        // Exact if the positions are bounded, as in each world that a history leaves.
        let position = start.saturating_add(k as u64);
        set_item(places, &items[k], Place::AtRing(ring, position));
    }
}

/// Whether an actor holds the buffers of these items, with none listed twice.
pub fn holds_items(places: &mut [Place], actor: usize, items: &[Item]) -> bool
    ensures answer { result ≡ are_held_apart actor places.old (flat_map tags items.now) }
    ensures kept { places.new ≡ places.old }
{
    let passed = mark_items(places, actor, items);
    if passed {
        hold_items(places, actor, items);
    }
    passed
}

/// Marks the buffers of these items, if all of them are held by an actor and none is listed twice.
fn mark_items(places: &mut [Place], actor: usize, items: &[Item]) -> bool
    ensures { IsClaimed actor places.old places.new (flat_map tags items.now) result }
{
    for k in 0..items.len() {
        if !mark_item(places, actor, &items[k]) {
            hold_items(places, actor, &items[..k]);
            return false;
        }
    }
    true
}

fn mark_item(places: &mut [Place], actor: usize, item: &Item) -> bool
    ensures { IsClaimed actor places.old places.new (tags item.now) result }
{
    match item {
        Item::Word(_) => true,
        Item::Buffers(numbers) => mark_each(places, actor, numbers.as_slice()),
    }
}

fn mark_each(places: &mut [Place], actor: usize, numbers: &[u64]) -> bool
    ensures { IsClaimed actor places.old places.new numbers.now result }
{
    for k in 0..numbers.len() {
        if !mark(places, actor, numbers[k]) {
            set_each(places, &numbers[..k], Place::Held(actor));
            return false;
        }
    }
    true
}

/// Marks a buffer that an actor holds.
fn mark(places: &mut [Place], actor: usize, b: u64) -> bool
    ensures { IsClaimed actor places.old places.new (b ∷ []) result }
{
    match cached(place_at(places, b), actor) {
        Some(place) => {
            set_place(places, b, place);
            true
        }
        None => false,
    }
}
