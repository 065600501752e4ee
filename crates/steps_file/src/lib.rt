//! The replies to a steps file: the lines of a plan, and then steps of actors on shared rings, and questions about
//! where a buffer is.
//!
//! A line passes through the modules in one order, and none calls an earlier one: `text` goes over the lines of a file,
//! `line` finds a line's words, `command` parses them, `stage` holds the result of the lines so far and decides whether
//! this one is allowed, `world` makes the step or looks up the buffer, and `reply` writes the result.
#![tactic(auto)]

mod command;
mod example;
mod line;
mod reply;
mod stage;
mod text;
mod world;

pub use text::steps_text;
