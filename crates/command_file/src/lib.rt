//! What all command files share: lines, words and numbers of a text, the parts of replies, and why a file was not
//! answered to its end. `specs/Files.antt` defines how a file is answered line by line, whatever its commands are.
#![tactic(auto)]

mod fault;
mod how;
mod number;
mod reply;
mod words;

pub use fault::TextFault;
pub use how::how_of;
pub use number::{len_is_1_to, number_of};
pub use reply::{write_number, write_two_numbers};
pub use words::{is_blank_or_comment, split_words, strip_carriage_return};
