//! The words for how much of a request has to be granted.

ghost use Rattle.std.specs.Prelude.{◌≡◌};
ghost use Rattle.command_file.specs.Hows.{how_of};

use geom::How;

/// `bulk` or `burst`.
pub fn how_of(word: &[u8]) -> Option<How>
    ensures { result ≡ how_of word.now }
{
    match word {
        b"bulk" => Some(How::Bulk),
        b"burst" => Some(How::Burst),
        _ => None,
    }
}
