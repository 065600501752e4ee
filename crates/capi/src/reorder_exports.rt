//! The exports for reorder windows.
ghost use Rattle.std.specs.Prelude.{◌≡◌, IfErr, Ok};
ghost use Rattle.reorder.specs.Waiting.{slid_to};
ghost use Rattle.capi.specs.Codes.{Answers};
ghost use Rattle.capi.specs.Handles.{AtWindow};
ghost use Rattle.capi.specs.Windows.{Drains, Inserts, OpensWindow};

use crate::handle::Handle;
use crate::keeping::{borrow, give, is_used, with_new, with_object};
use crate::object::Object;
use crate::reorder_windows::{MAX_WORDS, drain, insert, made, next, slide};
use crate::rings::{Fault, answer};
use std::alloc::Global;

/// Opens a window of `size` numbers, 1 to 65,536, that waits for number 0.
#[unsafe(no_mangle)]
pub extern "C" fn hkx_reorder_open(alloc: Global, h: &mut Handle, size: u32) -> i64
    ensures { Answers result (λ outcome. OpensWindow outcome size h.old.value h.new.value) }
{
    with_new!(alloc, h, Reorder(made(alloc, size)))
}

/// Inserts a word under its number.
#[unsafe(no_mangle)]
pub extern "C" fn hkx_reorder_insert(alloc: Global, h: &mut Handle, number: u64, word: u64) -> i64
    ensures { Answers result
        (AtWindow h.old.value h.new.value (λ w u outcome. Inserts outcome number word w u)) }
{
    with_object!(alloc, h, Reorder(window) => insert(window, number, word))
}

/// Moves the words whose turn it is to the front of an array, as many as it has places for.
#[unsafe(no_mangle)]
pub extern "C" fn hkx_reorder_drain(alloc: Global, h: &mut Handle, words: &mut [u64]) -> i64
    ensures { Answers result (λ outcome. AtWindow h.old.value h.new.value
        (λ w u code. Drains code MAX_WORDS words.old words.new w u) outcome
        × IfErr outcome (λ _. words.new ≡ words.old)) }
{
    with_object!(alloc, h, Reorder(window) => drain(window, words))
}

/// The number whose turn it is.
#[unsafe(no_mangle)]
pub extern "C" fn hkx_reorder_next(alloc: Global, h: &mut Handle, number: &mut u64) -> i64
    ensures { Answers result (λ outcome. AtWindow h.old.value h.new.value
        (λ w u code. (u ≡ w) × (code ≡ Ok 0) × (number.new ≡ w.next)) outcome
        × IfErr outcome (λ _. number.new ≡ number.old)) }
{
    with_object!(alloc, h, Reorder(window) => next(window, number))
}

/// Stops waiting for numbers below this one. No word is lost.
#[unsafe(no_mangle)]
pub extern "C" fn hkx_reorder_skip(alloc: Global, h: &mut Handle, number: u64) -> i64
    ensures { Answers result (AtWindow h.old.value h.new.value
        (λ w u outcome. (outcome ≡ Ok 0) × (u ≡ record w { next = slid_to w number }))) }
{
    with_object!(alloc, h, Reorder(window) => slide(window, number))
}
