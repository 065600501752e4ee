//! The row of places of a window.
ghost use Rattle.std.specs.Prelude.{◌≡◌, ◌+◌, ◌%◌, ◌<◌, ◌≤◌, IfOk, Some, None, vec_len, replicate, slice_set, slice_index_or};
ghost use Rattle.reorder.specs.Places.{IsFirstHeld};

use std::alloc::{AllocError, Global};

/// `size` empty places.
pub(crate) fn empty_row<T>(alloc: Global, size: usize) -> Result<Vec<Option<T>>, AllocError>
    ensures { IfOk result (λ places. places.items ≡ replicate size None) }
{
    let mut places = Vec::with_capacity(alloc, size)?;
    for _ in 0..size {
        places.push_reserved(None);
    }
    Ok(places)
}

/// The place that is `ahead` places after `head` in a circular row of `size`.
pub(crate) fn place_of(head: usize, ahead: usize, size: usize) -> usize
    requires head_in { head < size }
    requires ahead_in { ahead ≤ size }
    requires small { size ≤ 65536 }
    ensures { result ≡ (head + ahead) % size }
{
    let place = head + ahead;
    if place < size { place } else { place - size }
}

/// Puts an item into an empty place.
pub(crate) fn put<T>(places: &mut Vec<Option<T>>, place: usize, item: T)
    requires inside { place < vec_len places.old }
    requires vacant { slice_index_or places.old.items place None ≡ None }
    ensures { places.new.items ≡ slice_set places.old.items place (Some item) }
{
    match places[place].replace(item) {
        None => (),
        Some(_) => unreachable!(),
    }
}

/// The least number from `next` on, below `seq`, whose place has an item, or `seq` if there is none.
pub(crate) fn first_held<T>(places: &Vec<Option<T>>, next: u64, seq: u64) -> u64
    requires nonzero { 0 < vec_len places.now }
    requires ahead { next ≤ seq }
    ensures { IsFirstHeld places.now.items next seq result }
{
    let size = places.len() as u64;
    for step in 0..size.min(seq - next) {
        if places[((next + step) % size) as usize].is_some() {
            return next + step;
        }
    }
    seq
}
