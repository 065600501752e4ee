//! Settings of a forwarding run, read from a TOML document: the settings of a document are `settings_of` of its tree, a
//! definition in `specs/Settings.antt`, and a document without valid settings is refused with its first fault.
#![tactic(auto)]

mod fault;
mod key;
mod numbers;
mod read;
mod route;
mod routes;
mod sources;
mod texts;
mod tree;

pub use fault::SettingsFault;
pub use ipv4::{Hop, Ports};
pub use key::Key;
pub use read::Settings;
