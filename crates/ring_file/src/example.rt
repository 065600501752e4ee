//! A caller, using the contract alone.
ghost use Rattle.std.specs.Prelude.{[], length, IfOk};
ghost use Rattle.command_file.specs.Text.{lines_of};
ghost use Rattle.command_file.specs.Files.{IsAnsweredTo};
ghost use Rattle.ring_file.specs.Replies.{ring_file};

use crate::ring_text;
use command_file::TextFault;
use std::alloc::Global;

/// The replies to a ring file, and nothing else, if each of its lines has a valid form.
pub(crate) fn replies(alloc: Global, bytes: &[u8]) -> Result<Vec<u8>, TextFault>
    ensures { let lines = lines_of bytes.now in
        IfOk result (λ text. IsAnsweredTo ring_file (length lines) lines [] text.items) }
{
    let mut text = Vec::new(alloc);
    ring_text(alloc, bytes, &mut text)?;
    Ok(text)
}
