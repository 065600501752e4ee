//! The ports, and where each hop number leads.
ghost use Rattle.std.specs.Prelude.{◌≡◌};
ghost use Rattle.ipv4.specs.Ports.{way_of};

/// The maximum number of ports.
pub const MAX_PORTS: usize = 16;

/// Where a hop number leads: a port, and the address of the neighbour on it.
#[repr(C)]
#[derive(Clone, Copy, Debug, PartialEq, Eq)]
pub struct Hop {
    pub port: u32,
    pub to: [u8; 6],
}

/// The source address of each port, and the entry of each hop number. A hop number without an entry, or whose port has
/// no source, leads nowhere.
#[derive(Debug, Drop)]
pub struct Ports {
    pub sources: Vec<[u8; 6]>,
    pub hops: Vec<Hop>,
}

/// The way of a frame that is sent: its port, and the two addresses that it leaves with.
#[derive(Clone, Copy)]
pub struct Way {
    pub port: u32,
    pub to: [u8; 6],
    pub from: [u8; 6],
}

impl Ports {
    /// Where a hop number leads.
    #[inline]
    pub(crate) fn way(&self, hop: u32) -> Option<Way>
        ensures { result ≡ way_of self.now hop }
    {
        let hop = hop as usize;
        if hop >= self.hops.len() {
            return None;
        }
        let Hop { port, to } = self.hops[hop];
        let source = port as usize;
        if source >= self.sources.len() {
            return None;
        }
        let from = self.sources[source];
        Some(Way { port, to, from })
    }
}
