//! The commands of a ring file, and the forms of their lines.

ghost use Rattle.std.specs.Prelude.{◌≡◌};
ghost use Rattle.std.specs.List.{list_all};
ghost use Rattle.command_file.specs.Text.{texts};
ghost use Rattle.ring_file.specs.Commands.{command_of, longer_of, sized_of, put_of, take_of, is_item};

use command_file::{how_of, len_is_1_to, number_of};
use geom::How;

/// The maximum length of an item, in bytes.
const MAX_ITEM: usize = 32;

/// A command of a ring file. The items of a put are the line's words after the first two.
#[derive(Clone, Copy, Debug, PartialEq, Eq)]
pub enum Command {
    /// `ring power N`
    Power(u64),
    /// `ring exact N`
    Exact(u64),
    /// `put HOW ITEM..`
    Put(How),
    /// `take HOW N`
    Take(How, u64),
    /// `count`
    Count,
}

impl Command {
    /// The command of a line with these words, if it has one of the forms.
    pub fn parse(words: &[&[u8]]) -> Option<Command>
        ensures { result ≡ command_of (texts words.now) }
    {
        match words {
            [b"count"] => Some(Command::Count),
            [verb, second, rest @ ..] => Command::parse_longer(verb, second, rest),
            _ => None,
        }
    }

    /// A command of two words or more.
    fn parse_longer(verb: &[u8], second: &[u8], rest: &[&[u8]]) -> Option<Command>
        ensures { result ≡ longer_of verb.now second.now (texts rest.now) }
    {
        match verb {
            b"ring" => Command::parse_ring(second, rest),
            b"put" => Command::parse_put(second, rest),
            b"take" => Command::parse_take(second, rest),
            _ => None,
        }
    }

    /// `ring power N` or `ring exact N`, by the words after `ring`.
    fn parse_ring(word: &[u8], rest: &[&[u8]]) -> Option<Command>
        ensures { result ≡ sized_of word.now (texts rest.now) }
    {
        let [n] = rest else {
            return None;
        };
        match word {
            b"power" => number_of(n).map(Command::Power),
            b"exact" => number_of(n).map(Command::Exact),
            _ => None,
        }
    }

    /// `put HOW ITEM..`, by the words after `put`.
    fn parse_put(word: &[u8], items: &[&[u8]]) -> Option<Command>
        ensures { result ≡ put_of word.now (texts items.now) }
    {
        if are_items(items) {
            how_of(word).map(Command::Put)
        } else {
            None
        }
    }

    /// `take HOW N`, by the words after `take`.
    fn parse_take(word: &[u8], rest: &[&[u8]]) -> Option<Command>
        ensures { result ≡ take_of word.now (texts rest.now) }
    {
        let [n] = rest else {
            return None;
        };
        let how = how_of(word)?;
        let n = number_of(n)?;
        Some(Command::Take(how, n))
    }
}

/// Whether a word is an item: 1 to 32 bytes, each from 0x21 to 0x7e.
fn is_item(word: &[u8]) -> bool
    ensures { result ≡ is_item word.now }
{
    let sized = len_is_1_to(MAX_ITEM, word);
    let graphic = word.iter().all(|b| matches!(*b, 0x21..=0x7e));
    sized && graphic
}

/// Whether all words are items.
fn are_items(words: &[&[u8]]) -> bool
    ensures { result ≡ list_all is_item (texts words.now) }
{
    words.iter().all(|word| is_item(word))
}
