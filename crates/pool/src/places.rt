//! Where the buffers of words lie: a row has a place for each buffer of a pool, and the buffer is in a word exactly if
//! the word at its place carries it.
ghost use Rattle.std.specs.Prelude.{◌≡◌, ◌+◌, ◌<◌, ◌≤◌, ◌==◌, ◌++◌, ◌∷◌, ℕ, [], length, slice_get, take, true, false};
ghost use Rattle.ringcore_laws.specs.FreeRings.{AreSingle};
ghost use Rattle.ringcore_laws.specs.Sound.{occurrences, occurrences_in};
ghost use Rattle.fabric.specs.Owned.{one_if, told};
ghost use Rattle.pool.specs.Places.{AreBelow, AreOnce, ArePlaced};

use crate::hands::carries;
use crate::word_stack::MAX_PLACES;
use arrayvec::ArrayVec;
use burst::Word;

/// Whether there is a word at a place, and carries a buffer.
#[inline]
fn lies_at<T: Word>(words: &[T], place: usize, b: u32) -> bool
    requires single { AreSingle T.numbers words.now }
    ensures { one_if result ≡ occurrences b (told T.numbers (slice_get words.now place)) }
{
    place < words.len() && carries(&words[place], b)
}

/// Whether one of these words carries a buffer.
#[inline]
pub(crate) fn is_among<T: Word>(words: &[T], at: &[u16], b: u32) -> bool
    requires placed { ArePlaced T.numbers at.now words.now }
    requires single { AreSingle T.numbers words.now }
    ensures { one_if result ≡ occurrences_in T.numbers b words.now }
{
    let place = match at.get(b as usize) {
        Some(place) => *place,
        None => 0,
    };
    lies_at(words, place as usize, b)
}

/// Writes a word after the first `n`, if its buffer isn't in one of them; otherwise nothing changes.
#[inline]
fn push_one_apart<T: Word>(words: &mut [T], n: usize, at: &mut [u16], item: T) -> bool
    requires fits { n < length words.old }
    requires small { length words.old ≤ MAX_PLACES }
    requires placed { ArePlaced T.numbers at.old (take n words.old) }
    requires single { AreSingle T.numbers (take n words.old) }
    requires one { (length (T.numbers item) == 1) ≡ true }
    requires below { AreBelow T.numbers (length at.old) (item ∷ []) }
    ensures long { length words.new ≡ length words.old }
    ensures places { length at.new ≡ length at.old }
    ensures pushed { result ≡ true → take (n + 1) words.new ≡ take n words.old ++ item ∷ [] }
    ensures placed { result ≡ true → ArePlaced T.numbers at.new (take n words.old ++ item ∷ []) }
    ensures back { result ≡ false → words.new ≡ words.old }
    ensures kept { result ≡ false → at.new ≡ at.old }
    ensures twice { result ≡ false → (b : ℕ) × (1 < occurrences_in T.numbers b (take n words.old ++ item ∷ [])) }
{
    let Some(b) = item.single_tag() else {
        unreachable!()
    };
    if lies_at(&words[0..n], at[b as usize] as usize, b) {
        return false;
    }
    words[n] = item;
    at[b as usize] = n as u16;
    true
}

/// Writes words after the first `n`, if no buffer of theirs is in one of those or in two of them; otherwise the first
/// `n` stay. Requires: each word carries one buffer.
#[inline]
pub(crate) fn push_all_apart<T: Word>(
    words: &mut [T],
    n: usize,
    at: &mut [u16],
    items: &[T],
) -> bool
    requires fits { n + length items.now ≤ length words.old }
    requires small { length words.old ≤ MAX_PLACES }
    requires placed { ArePlaced T.numbers at.old (take n words.old) }
    requires single { AreSingle T.numbers (take n words.old) }
    requires ones { AreSingle T.numbers items.now }
    requires below { AreBelow T.numbers (length at.old) items.now }
    ensures long { length words.new ≡ length words.old }
    ensures places { length at.new ≡ length at.old }
    ensures pushed { result ≡ true → take (n + length items.now) words.new ≡ take n words.old ++ items.now }
    ensures placed { result ≡ true → ArePlaced T.numbers at.new (take n words.old ++ items.now) }
    ensures back { result ≡ false → take n words.new ≡ take n words.old }
    ensures kept { result ≡ false → ArePlaced T.numbers at.new (take n words.old) }
    ensures twice { result ≡ false → (b : ℕ) × (1 < occurrences_in T.numbers b (take n words.old ++ items.now)) }
{
    for i in 0..items.len() {
        if !push_one_apart(words, n + i, at, items[i]) {
            return false;
        }
    }
    true
}

/// Gives the buffers of words their places. Requires: each word carries one buffer, and none is in two words.
pub(crate) fn place_all<T: Word>(words: &[T], at: &mut [u16])
    requires small { length words.now ≤ MAX_PLACES }
    requires single { AreSingle T.numbers words.now }
    requires once { AreOnce T.numbers words.now }
    requires below { AreBelow T.numbers (length at.old) words.now }
    ensures places { length at.new ≡ length at.old }
    ensures placed { ArePlaced T.numbers at.new words.now }
{
    for i in 0..words.len() {
        let Some(b) = words[i].single_tag() else {
            unreachable!()
        };
        at[b as usize] = i as u16;
    }
}

/// Whether one of these words carries a buffer that an item carries.
fn has_any_of<T: Word>(words: &[T], at: &[u16], numbers: &[u32]) -> bool
    requires placed { ArePlaced T.numbers at.now words.now }
    requires single { AreSingle T.numbers words.now }
    ensures found { result ≡ true
        → (b : ℕ) × (0 < occurrences b numbers.now) × (0 < occurrences_in T.numbers b words.now) }
    ensures none { result ≡ false
        → (b : ℕ) → 0 < occurrences b numbers.now → occurrences_in T.numbers b words.now ≡ 0 }
{
    for i in 0..numbers.len() {
        if is_among(words, at, numbers[i]) {
            return true;
        }
    }
    false
}

/// Whether one of these words carries a buffer that an item carries, which may carry any number of them.
fn has_several<T: Word>(words: &[T], at: &[u16], item: &T) -> bool
    requires placed { ArePlaced T.numbers at.now words.now }
    requires single { AreSingle T.numbers words.now }
    ensures found { result ≡ true
        → (b : ℕ) × (0 < occurrences b (T.numbers item.now)) × (0 < occurrences_in T.numbers b words.now) }
    ensures none { result ≡ false
        → (b : ℕ) → 0 < occurrences b (T.numbers item.now) → occurrences_in T.numbers b words.now ≡ 0 }
{
    let mut out = ArrayVec::new();
    item.tags(&mut out);
    has_any_of(words, at, out.as_slice())
}

/// Whether one of these words carries a buffer that an item carries. Most items carry one, which is tested first.
#[inline]
fn has_one<T: Word>(words: &[T], at: &[u16], item: &T) -> bool
    requires placed { ArePlaced T.numbers at.now words.now }
    requires single { AreSingle T.numbers words.now }
    ensures found { result ≡ true
        → (b : ℕ) × (0 < occurrences b (T.numbers item.now)) × (0 < occurrences_in T.numbers b words.now) }
    ensures none { result ≡ false
        → (b : ℕ) → 0 < occurrences b (T.numbers item.now) → occurrences_in T.numbers b words.now ≡ 0 }
{
    match item.single_tag() {
        Some(b) => is_among(words, at, b),
        None => has_several(words, at, item),
    }
}

/// Whether one of these words carries a buffer that one of the items carries.
#[inline]
pub(crate) fn has_any<T: Word>(words: &[T], at: &[u16], items: &[T]) -> bool
    requires placed { ArePlaced T.numbers at.now words.now }
    requires single { AreSingle T.numbers words.now }
    ensures found { result ≡ true
        → (b : ℕ) × (0 < occurrences_in T.numbers b items.now) × (0 < occurrences_in T.numbers b words.now) }
    ensures none { result ≡ false
        → (b : ℕ) → 0 < occurrences_in T.numbers b items.now → occurrences_in T.numbers b words.now ≡ 0 }
{
    for i in 0..items.len() {
        if has_one(words, at, &items[i]) {
            return true;
        }
    }
    false
}
