//! The replies to a ring file: commands on one ring, one per line.
//!
//! A line passes through the modules in one order: `text` goes over the lines of a file, `command` parses a line, and
//! `answer` runs the command and writes the reply.
#![tactic(auto)]

mod answer;
mod command;
mod example;
mod text;

pub use text::ring_text;
