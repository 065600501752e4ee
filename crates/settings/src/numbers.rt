//! The keys of a document that are numbers.

ghost use Rattle.std.specs.Prelude.{◌≡◌, IfOk};
ghost use Rattle.toml.specs.View.{table_view};
ghost use Rattle.settings.specs.Keys.{Allows};
ghost use Rattle.settings.specs.Settings.{number_at, numbers_of};
ghost use Rattle.settings.specs.Allowed.{AreAllowed};

use crate::fault::SettingsFault;
use crate::key::Key;
use crate::tree::{member, natural};
use toml::Table;

/// The numbers of a document.
#[derive(Clone, Copy)]
pub struct Numbers {
    pub buffers: u32,
    pub headroom: u32,
    pub room: u32,
    pub cache: u32,
    pub burst: u32,
    pub ring: u32,
    pub bits: u32,
    pub groups: u32,
}

/// The numbers, or their first fault.
#[tactic(auto, unfolding(crate::specs::Settings::numbers_of))]
pub fn read_numbers(tree: &Table) -> Result<Numbers, SettingsFault>
    ensures value { result ≡ numbers_of (table_view tree.now) }
    ensures allowed { IfOk result AreAllowed }
{
    let buffers = number(tree, Key::Buffers)?;
    let headroom = number(tree, Key::Headroom)?;
    let room = number(tree, Key::Room)?;
    let cache = number(tree, Key::Cache)?;
    let burst = number(tree, Key::Burst)?;
    let ring = number(tree, Key::Ring)?;
    let bits = number(tree, Key::Bits)?;
    let groups = number(tree, Key::Groups)?;
    Ok(Numbers {
        buffers,
        headroom,
        room,
        cache,
        burst,
        ring,
        bits,
        groups,
    })
}

/// The number at a key, or the fault that it is missing or not allowed.
fn number(tree: &Table, key: Key) -> Result<u32, SettingsFault>
    ensures value { result ≡ number_at (table_view tree.now) key }
    ensures allowed { IfOk result (Allows key) }
{
    match member(tree, key.name()) {
        None => key.default().ok_or(SettingsFault::Missing(key)),
        Some(value) => match natural(value) {
            Some(n) if key.allows(n) => Ok(n as u32),
            _ => Err(SettingsFault::BadValue(key)),
        },
    }
}
