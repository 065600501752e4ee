//! The keys of a settings document, and the values of those that are numbers.

ghost use Rattle.std.specs.Prelude.{◌≡◌, ◌≤◌, IsTrue};
ghost use Rattle.settings.specs.Keys.{name_of, is_allowed, default_of};

use std::fmt;

/// A key of a settings document.
#[derive(Clone, Copy, Debug, PartialEq, Eq)]
pub enum Key {
    /// The number of buffers: 1 to 65,536. Required.
    Buffers,
    /// Bytes of headroom in each buffer: 0 to 1,024, default 128.
    Headroom,
    /// Bytes of room in each buffer besides the headroom: 64 to 65,536, default 2,048.
    Room,
    /// Free buffers that the reader takes at a time: 0 to 128, default 32.
    Cache,
    /// The maximum number of packets moved at once: 1 to 64, default 32.
    Burst,
    /// The capacity of each ring between stages: 1 to 65,536, default 512.
    Ring,
    /// Bits of the first level of the route table: 16 or 24, default 24.
    Bits,
    /// The maximum number of groups of the route table: 0 to 65,536, default 256.
    Groups,
    /// The array of ports, 1 to 16 tables. Required.
    Port,
    /// The hardware address of a port.
    Mac,
    /// The array of routes, at most 65,536 tables.
    Route,
}

impl Key {
    /// The key as it is written in a document.
    pub fn name(self) -> &'static str
        ensures { result.now ≡ name_of self }
    {
        match self {
            Key::Buffers => "buffers",
            Key::Headroom => "headroom",
            Key::Room => "room",
            Key::Cache => "cache",
            Key::Burst => "burst",
            Key::Ring => "ring",
            Key::Bits => "bits",
            Key::Groups => "groups",
            Key::Port => "port",
            Key::Mac => "mac",
            Key::Route => "route",
        }
    }

    /// Whether the key is a number that may have this value.
    pub(crate) fn allows(self, n: u64) -> bool
        ensures value { result ≡ is_allowed self n }
        ensures small { IsTrue result → n ≤ 65536 }
    {
        match self {
            Key::Buffers | Key::Ring => is_within(1, 65536, n),
            Key::Headroom => is_within(0, 1024, n),
            Key::Room => is_within(64, 65536, n),
            Key::Cache => is_within(0, 128, n),
            Key::Burst => is_within(1, 64, n),
            Key::Bits => n == 16 || n == 24,
            Key::Groups => is_within(0, 65536, n),
            Key::Port | Key::Mac | Key::Route => false,
        }
    }

    /// The default value of a number, if it has one.
    pub(crate) fn default(self) -> Option<u32>
        ensures { result ≡ default_of self }
    {
        match self {
            Key::Headroom => Some(128),
            Key::Room => Some(2048),
            Key::Cache | Key::Burst => Some(32),
            Key::Ring => Some(512),
            Key::Bits => Some(24),
            Key::Groups => Some(256),
            Key::Buffers | Key::Port | Key::Mac | Key::Route => None,
        }
    }
}

impl fmt::Display for Key {
    fn fmt<W: fmt::Write>(&self, f: &mut fmt::Formatter<W>) -> fmt::Result {
        f.write_str(self.name())
    }
}

/// Whether n is from `low` to `high`.
fn is_within(low: u64, high: u64, n: u64) -> bool
    ensures value { result ≡ within.is_within low high n }
    ensures below { IsTrue result → n ≤ high }
{
    low <= n && n <= high
}

ghost use Rattle.settings.specs.Texts as within;
