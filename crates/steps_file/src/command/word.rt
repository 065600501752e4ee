//! The words of the forms: verbs, modes, sides and numbers.

ghost use Rattle.std.specs.Prelude.{◌≡◌};
ghost use Rattle.std.specs.Str.{bytes_eq};
ghost use Rattle.command_file.specs.Text.{texts};
ghost use Rattle.steps_file.specs.Forms.{only_number, mode_named, side_named};

use command_file::number_of;
use geom::{Mode, Side};

/// Whether a word is equal to this text.
pub fn is_word(word: &[u8], text: &[u8]) -> bool
    ensures { result ≡ bytes_eq word.now text.now }
{
    word == text
}

/// One number.
pub fn only_number(words: &[&[u8]]) -> Option<u64>
    ensures { result ≡ only_number (texts words.now) }
{
    match words {
        [n] => number_of(n),
        _ => None,
    }
}

/// `multi` or `hts`.
pub fn mode_named(word: &[u8]) -> Option<Mode>
    ensures { result ≡ mode_named word.now }
{
    match word {
        b"multi" => Some(Mode::Multi),
        b"hts" => Some(Mode::Hts),
        _ => None,
    }
}

/// `put` or `take`.
pub fn side_named(word: &[u8]) -> Option<Side>
    ensures { result ≡ side_named word.now }
{
    match word {
        b"put" => Some(Side::Put),
        b"take" => Some(Side::Take),
        _ => None,
    }
}
