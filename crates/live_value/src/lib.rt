//! A value that one writer publishes, and that readers look at while it publishes the next. No call waits.
#![tactic(auto)]

mod history;
mod lane;
mod line;
mod past;
mod publisher;
mod reader;
mod showing;

pub use past::Past;
pub use publisher::Publisher;
pub use reader::Reader;
