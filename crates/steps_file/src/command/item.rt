//! The items and the lists of numbers of a line.

ghost use Rattle.std.specs.Prelude.{◌≡◌, [], ◌∷◌, IfOk};
ghost use Rattle.ringcore_laws.specs.declared.contents.Item.TheVariants.{Buffers};
ghost use Rattle.command_file.specs.Text.{texts, number_of};
ghost use Rattle.steps_file.specs.Forms.{each_of, item_of, buffers_of, signs_part};

use command_file::number_of;
use ringcore_laws::{Item, Items, Numbers};
use std::alloc::{AllocError, Global};

/// The maximum number of buffers that an item carries.
const MAX_ITEM_BUFFERS: usize = 64;

/// The numbers in these words, if all of them are numbers.
pub fn numbers_of(alloc: Global, words: &[&[u8]]) -> Result<Option<Numbers>, AllocError>
    ensures { IfOk result (λ numbers. numbers ≡ each_of number_of (texts words.now)) }
{
    let mut numbers = Vec::new(alloc);
    for word in words {
        match number_of(word) {
            Some(n) => numbers.push(n)?,
            None => return Ok(None),
        }
    }
    Ok(Some(Numbers::of(numbers)))
}

/// The items in these words, if all of them are items.
pub fn items_of(alloc: Global, words: &[&[u8]]) -> Result<Option<Items>, AllocError>
    ensures { IfOk result (λ items. items ≡ each_of item_of (texts words.now)) }
{
    let mut items = Vec::with_capacity(alloc, words.len())?;
    for word in words {
        match item_of(alloc, word)? {
            Some(item) => items.push(item)?,
            None => return Ok(None),
        }
    }
    Ok(Some(Items::of(items)))
}

/// An item: `xN` is a word, `bN+M+..` carries these buffers.
fn item_of(alloc: Global, word: &[u8]) -> Result<Option<Item>, AllocError>
    ensures { IfOk result (λ item. item ≡ item_of word.now) }
{
    match word {
        [b'x', digits @ ..] => Ok(number_of(digits).map(Item::Word)),
        [b'b', digits @ ..] => buffers_of(alloc, digits),
        _ => Ok(None),
    }
}

/// The item that carries the buffers `N+M+..`, up to 64. Most carry one, which is a number without a sign.
fn buffers_of(alloc: Global, digits: &[u8]) -> Result<Option<Item>, AllocError>
    ensures { IfOk result (λ item. item ≡ buffers_of digits.now) }
{
    match number_of(digits) {
        Some(n) => Ok(Some(one_buffer(alloc, n)?)),
        None => several_buffers(alloc, digits),
    }
}

/// The item that carries one buffer.
fn one_buffer(alloc: Global, n: u64) -> Result<Item, AllocError>
    ensures { IfOk result (λ item. item ≡ Buffers (n ∷ [])) }
{
    let mut numbers = Vec::with_capacity(alloc, 1)?;
    numbers.push(n)?;
    Ok(Item::Buffers(Numbers::of(numbers)))
}

/// The item that carries the buffers between the signs.
fn several_buffers(alloc: Global, digits: &[u8]) -> Result<Option<Item>, AllocError>
    ensures { IfOk result (λ item. item ≡ buffers_of digits.now) }
{
    let parts = parts_of(alloc, digits)?;
    if parts.len() > MAX_ITEM_BUFFERS {
        return Ok(None);
    }
    let numbers = numbers_of(alloc, parts.as_slice())?;
    Ok(numbers.map(Item::Buffers))
}

/// The parts between the signs `+`.
fn parts_of<'a>(alloc: Global, digits: &'a [u8]) -> Result<Vec<&'a [u8]>, AllocError>
    ensures { IfOk result (λ parts. texts parts.items ≡ signs_part digits.now) }
{
    digits.split(|b| *b == b'+').collect(alloc)
}
