//! Bursts: the destinations of up to 64 frames are looked up together, and then each frame is forwarded.
ghost use Rattle.std.specs.Prelude.{◌≡◌, ◌≤◌, All, length, map};
ghost use Rattle.live_routes.specs.Frames.{IsWhole, address_of, all_left_by, found_numbers, left, sent_count, verdict_by};
ghost use Rattle.live_routes.specs.Ports.{sources_of};

use crate::fib::Fib;
use crate::frame::{DROP, Frame, address_of, forward_in};
use crate::ports::Port;
use ipv4::Hop;
use lpm::NextHop;

/// The maximum number of frames in one burst.
pub const MAX_FRAMES: usize = 64;

/// Writes the addresses to look up for frames, each at its frame's place.
fn write_addresses(frames: &[Frame<'_>], addresses: &mut [u32])
    requires { length frames.now ≡ length addresses.old }
    ensures { addresses.new ≡ map address_of frames.now }
{
    for i in 0..frames.len() {
        addresses[i] = address_of(&frames[i]);
    }
}

/// Forwards frames, each by the hop that was found for it at the same place, and writes the numbers of their verdicts.
/// Requires: as many hops and places as frames, no frame with more bytes than it had on the wire.
fn forward_block(
    frames: &mut [Frame<'_>],
    found: &[NextHop],
    verdicts: &mut [u32],
    hops: &[Hop],
    ports: &[Port],
)
    requires whole { All IsWhole frames.old }
    requires found { length found.now ≡ length frames.old }
    requires places { length verdicts.old ≡ length frames.old }
    ensures verdicts { verdicts.new ≡ found_numbers hops.now (sources_of ports.now) found.now frames.old }
    ensures frames { frames.new ≡ all_left_by hops.now (sources_of ports.now) found.now frames.old }
{
    for i in 0..frames.len() {
        verdicts[i] = forward_in(&mut frames[i], found[i], hops, ports);
    }
}

/// Forwards frames, with their lookups together, and writes the numbers of their verdicts. Requires: at most
/// `MAX_FRAMES` frames and as many places, no frame with more bytes than it had on the wire. Takes no memory.
pub(crate) fn forward_all(frames: &mut [Frame<'_>], verdicts: &mut [u32], fib: &Fib<Hop, Port>)
    requires few { length frames.old ≤ 64 }
    requires whole { All IsWhole frames.old }
    requires places { length verdicts.old ≡ length frames.old }
    ensures verdicts { verdicts.new ≡ map (verdict_by fib.now) frames.old }
    ensures frames { frames.new ≡ map (left fib.now) frames.old }
{
    let count = frames.len();
    let mut addresses = [0; MAX_FRAMES];
    let mut found = [NextHop::none(); MAX_FRAMES];
    write_addresses(frames, &mut addresses[..count]);
    fib.lookup_burst(&addresses[..count], &mut found[..count]);
    let hops = fib.hops();
    let ports = fib.ports();
    forward_block(frames, &found[..count], verdicts, hops, ports);
}

/// How many of these numbers of verdicts are of frames that are sent.
pub(crate) fn count_sent(verdicts: &[u32]) -> usize
    ensures count { result ≡ sent_count verdicts.now }
    ensures most { result ≤ length verdicts.now }
{
    let mut count: usize = 0;
    for verdict in verdicts {
        if *verdict < DROP {
            count += 1;
        }
    }
    count
}
