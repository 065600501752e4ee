//! Calls on a reorder window.
ghost use Rattle.std.specs.Prelude.{◌≡◌, ◌≤◌, ◌<◌, IfErr, IfOk, Ok, length};
ghost use Rattle.reorder.specs.Waiting.{empty_window, slid_to};
ghost use Rattle.capi.specs.Windows.{Drains, Inserts, RefusesWindow, window_fault};

use crate::rings::Fault;
use reorder::{InsertFault, MAX_SIZE, Window};
use std::alloc::Global;

/// The largest number of words in one call.
pub(crate) const MAX_WORDS: usize = 4095;

/// The fault for one of the window's own.
fn fault(why: InsertFault) -> Fault
    ensures { result ≡ window_fault why }
{
    match why {
        InsertFault::Late => Fault::Late,
        InsertFault::Early => Fault::Early,
        InsertFault::Double => Fault::Double,
    }
}

/// An empty window. Errors: `Plan` if the size is 0 or above 65,536; `Memory`.
pub(crate) fn made(alloc: Global, size: u32) -> Result<Window<u64>, Fault>
    ensures made { IfOk result (λ w. (0 < size) × (size ≤ 65536) × (w ≡ empty_window size)) }
    ensures refused { IfErr result (λ why. RefusesWindow size why) }
{
    let size = size as usize;
    if size == 0 || size > MAX_SIZE {
        return Err(Fault::Plan);
    }
    match Window::new(alloc, size) {
        Ok(window) => Ok(window),
        Err(_) => Err(Fault::Memory),
    }
}

/// Inserts a word under its number. Errors: the window's own.
pub(crate) fn insert(window: &mut Window<u64>, number: u64, word: u64) -> Result<u32, Fault>
    ensures { Inserts result number word window.old window.new }
{
    match window.insert(number, word) {
        Ok(()) => Ok(0),
        Err((_, why)) => Err(fault(why)),
    }
}

/// Moves the words whose turn it is to the front of an array.
fn drain_from(window: &mut Window<u64>, words: &mut [u64]) -> u32
    requires few { length words.old ≤ MAX_WORDS }
    ensures { Drains (Ok result) MAX_WORDS words.old words.new window.old window.new }
{
    for i in 0..words.len() {
        match window.pop() {
            Some(word) => words[i] = word,
            None => return i as u32,
        }
    }
    words.len() as u32
}

/// Moves the words whose turn it is to the front of an array. Errors: `Count` if it has more than `MAX_WORDS` places.
pub(crate) fn drain(window: &mut Window<u64>, words: &mut [u64]) -> Result<u32, Fault>
    ensures { Drains result MAX_WORDS words.old words.new window.old window.new }
{
    if words.len() > MAX_WORDS {
        return Err(Fault::Count);
    }
    Ok(drain_from(window, words))
}

/// The number whose turn it is.
pub(crate) fn next(window: &Window<u64>, number: &mut u64) -> Result<u32, Fault>
    ensures { (result ≡ Ok 0) × (number.new ≡ window.now.next) }
{
    *number = window.next();
    Ok(0)
}

/// Stops waiting for numbers below this one.
pub(crate) fn slide(window: &mut Window<u64>, number: u64) -> Result<u32, Fault>
    ensures { (result ≡ Ok 0) × (window.new ≡ record window.old { next = slid_to window.old number }) }
{
    let _turn = window.slide(number);
    Ok(0)
}
