//! A caller: a text that isn't UTF-8 isn't a document.
ghost use Rattle.std.specs.Prelude.{◌≡◌, Err, IsUtf8, OnOk};
ghost use Rattle.settings.specs.declared.fault.SettingsFault.TheVariants.{NotToml};

use settings::{Settings, SettingsFault};
use std::alloc::Global;

/// Reads a text, and once more if memory was refused.
pub fn read(alloc: Global, text: &[u8]) -> Result<Settings, SettingsFault>
    ensures utf8 { OnOk result (IsUtf8 text.now) }
    ensures bytes { (¬ IsUtf8 text.now) → result ≡ Err NotToml }
{
    match Settings::read(alloc, text) {
        Err(SettingsFault::Memory) => Settings::read(alloc, text),
        answer => answer,
    }
}
