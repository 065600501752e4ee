//! A caller, using the contract alone.
ghost use Rattle.std.specs.Prelude.{[], length, IfOk};
ghost use Rattle.command_file.specs.Text.{lines_of};
ghost use Rattle.command_file.specs.Files.{IsAnsweredTo};
ghost use Rattle.steps_file.specs.Replies.{steps_file};

use crate::steps_text;
use command_file::TextFault;
use std::alloc::Global;

/// The replies to a steps file, and nothing else, if each of its lines is allowed at its place.
pub(crate) fn replies(alloc: Global, bytes: &[u8]) -> Result<Vec<u8>, TextFault>
    ensures { let lines = lines_of bytes.now in
        IfOk result (λ text. IsAnsweredTo steps_file (length lines) lines [] text.items) }
{
    let mut text = Vec::new(alloc);
    steps_text(alloc, bytes, &mut text)?;
    Ok(text)
}
