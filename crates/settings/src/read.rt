//! Reading the settings of a document.

ghost use Rattle.std.specs.Prelude.{◌≡◌, ◌≤◌, length, IsUtf8, OnOk};
ghost use Rattle.settings.specs.Keys.{IsFrom};
ghost use Rattle.settings.specs.Faults.{Gives};
ghost use Rattle.settings.specs.Settings.{least_buffers};

use crate::fault::SettingsFault;
use crate::numbers::{Numbers, read_numbers};
use crate::routes::read_routes;
use crate::sources::read_sources;
use crate::tree::tree;
use ipv4::Ports;
use std::alloc::Global;
use toml::Table;

/// The buffers required besides one and a half caches: those of one burst.
const BURST: u32 = 64;

/// The settings of a forwarding run.
#[derive(Drop)]
pub struct Settings {
    /// The number of buffers: 1 to 65,536, and at least a burst of 64 and one and a half caches.
    pub buffers: u32,
    /// Bytes of headroom in each buffer: 0 to 1,024.
    pub headroom: u32,
    /// Bytes of room in each buffer besides the headroom: 64 to 65,536.
    pub room: u32,
    /// Free buffers that the reader takes at a time: 0 to 128.
    pub cache: u32,
    /// The maximum number of packets moved at once: 1 to 64.
    pub burst: u32,
    /// The capacity of each ring between stages: 1 to 65,536.
    pub ring: u32,
    /// The routes: route i of the document leads to hop i of `ports`.
    pub table: lpm::Table,
    /// The ports, 1 to 16, and the next hops.
    pub ports: Ports,
    pub ghost buffers_in_range: { IsFrom 1 65536 buffers },
    pub ghost headroom_in_range: { IsFrom 0 1024 headroom },
    pub ghost room_in_range: { IsFrom 64 65536 room },
    pub ghost cache_in_range: { IsFrom 0 128 cache },
    pub ghost burst_in_range: { IsFrom 1 64 burst },
    pub ghost ring_in_range: { IsFrom 1 65536 ring },
    pub ghost ports_in_range: { IsFrom 1 16 (length ports.sources.items) },
    pub ghost enough: { least_buffers cache ≤ buffers },
}

impl Settings {
    ghost use Rattle.toml.specs.View.{table_view};
    ghost use Rattle.settings.specs.Allowed.{AreAllowed};
    ghost use Rattle.settings.specs.Settings.{settings_in, settings_of, with_buffers};
    ghost use Rattle.settings.specs.Shown.{content_in};
    ghost use Rattle.settings.specs.Reading.{shown};

    /// The settings of a document, ready for a run.
    ///
    /// Errors, in this order: 1 `NotToml`; for each number key 2 `Missing` or 3 `BadValue`; `Missing` or `BadValue` for
    /// the array `port` as a whole, and for each `mac` in it; `BadValue` for the array `route` as a whole, 4 `BadRoute`
    /// for each route in it; 5 `TooFewBuffers`. 6 `Memory` may come at any point.
    pub fn read(alloc: Global, text: &[u8]) -> Result<Settings, SettingsFault>
        ensures utf8 { OnOk result (IsUtf8 text.now) }
        ensures bytes { (¬ IsUtf8 text.now) → result ≡ Err SettingsFault.NotToml }
        ensures exact { IsUtf8 text.now → Gives shown result (settings_in text.now) }
    {
        match std::str::from_utf8(text) {
            Ok(text) => Settings::of_text(alloc, text),
            Err(_) => Err(SettingsFault::NotToml),
        }
    }

    /// The settings of a document in UTF-8.
    fn of_text(alloc: Global, text: &str) -> Result<Settings, SettingsFault>
        ensures { Gives shown result (settings_in text.now) }
    {
        let tree = tree(alloc, text)?;
        Settings::of_tree(alloc, &tree)
    }

    /// The settings of a tree.
    #[tactic(auto, unfolding(crate::specs::Settings::settings_of))]
    fn of_tree(alloc: Global, tree: &Table) -> Result<Settings, SettingsFault>
        ensures { Gives shown result (settings_of (table_view tree.now)) }
    {
        let numbers = read_numbers(tree)?;
        let sources = read_sources(alloc, tree)?;
        let ports = sources.len() as u32;
        let (table, hops) = read_routes(alloc, numbers.bits, numbers.groups, ports, tree)?;
        Settings::with_buffers(numbers, table, Ports { sources, hops })
    }

    /// The settings of these parts, if there are enough buffers.
    fn with_buffers(
        numbers: Numbers,
        table: lpm::Table,
        ports: Ports,
    ) -> Result<Settings, SettingsFault>
        requires allowed { AreAllowed numbers }
        requires bits { table.bits ≡ numbers.bits }
        requires groups { table.limit ≡ numbers.groups }
        requires count { IsFrom 1 16 (length ports.sources.items) }
        ensures { Gives shown result (with_buffers (content_in numbers table ports)) }
    {
        if numbers.buffers < BURST + 3 * numbers.cache / 2 {
            return Err(SettingsFault::TooFewBuffers);
        }
        Ok(Settings {
            buffers: numbers.buffers,
            headroom: numbers.headroom,
            room: numbers.room,
            cache: numbers.cache,
            burst: numbers.burst,
            ring: numbers.ring,
            table,
            ports,
        })
    }
}
