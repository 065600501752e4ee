//! The words of a line.

ghost use Rattle.std.specs.Prelude.{◌≡◌, OnOk};
ghost use Rattle.std.specs.Str.Lines.{strip_carriage_return};
ghost use Rattle.command_file.specs.Text.{texts, words_of, is_blank_or_comment};

use std::alloc::AllocError;

/// Fills a list with the words of a line: what is between spaces and tabs.
pub fn split_words<'a>(line: &'a [u8], words: &mut Vec<&'a [u8]>) -> Result<(), AllocError>
    ensures { OnOk result (texts words.new.items ≡ words_of line.now) }
{
    words.clear();
    for part in line.split(|b| *b == b' ' || *b == b'\t') {
        if !part.is_empty() {
            words.push(part)?;
        }
    }
    Ok(())
}

/// A line without one 0x0d at its end.
pub fn strip_carriage_return(line: &[u8]) -> &[u8]
    ensures { result.now ≡ strip_carriage_return line.now }
{
    line.strip_suffix(b"\r").unwrap_or(line)
}

/// Whether a line with these words has no command: it has no words, or the first begins with `#`.
pub fn is_blank_or_comment(words: &[&[u8]]) -> bool
    ensures { result ≡ is_blank_or_comment (texts words.now) }
{
    match words {
        [] => true,
        [first, ..] => matches!(first, [b'#', ..]),
    }
}
