//! Laws of forwarding, each the contract of a function without a body.
ghost use Rattle.std.specs.Prelude.{◌≡◌, ◌<◌, ℕ, Bool, List, length, unwrap_or};
ghost use Rattle.lpm.specs.Match.{lookup_in};
ghost use Rattle.lpm.specs.Prefixes.{Members};
ghost use Rattle.ipv4.specs.declared.ports.Ports.{Ports};
ghost use Rattle.ipv4.specs.declared.verdicts.Verdict.TheVariants.{Send};
ghost use Rattle.ipv4.specs.Bytes.{AreBytes};
ghost use Rattle.ipv4.specs.Checksum.{ones_complement_sum};
ghost use Rattle.ipv4.specs.Fields.{header_of, packet_of, time_to_live};
ghost use Rattle.ipv4.specs.Forwarding.{destination_in, forwarded, forwarded_by};
ghost use Rattle.ipv4.specs.Ports.{HasAddresses};

/// A frame that is sent has a correct checksum again, and the same length.
pub fn a_sent_frame_is_right()
    ensures checksum { (routes : Members) (ports : Ports) (frame : List ℕ) (wire port : ℕ) (tagged : Bool)
        → HasAddresses ports → AreBytes frame → let sent = forwarded routes ports frame wire in
        sent.verdict ≡ Send port tagged → ones_complement_sum (header_of (packet_of sent.frame)) ≡ 0xFFFF }
    ensures length { (routes : Members) (ports : Ports) (frame : List ℕ) (wire port : ℕ) (tagged : Bool)
        → HasAddresses ports → let sent = forwarded routes ports frame wire in
        sent.verdict ≡ Send port tagged → length sent.frame ≡ length frame }
{}

/// A frame is sent through one of the existing ports.
pub fn a_frame_is_sent_by_a_port()
    ensures { (routes : Members) (ports : Ports) (frame : List ℕ) (wire port : ℕ) (tagged : Bool)
        → (forwarded routes ports frame wire).verdict ≡ Send port tagged → port < length ports.sources.items }
{}

/// A frame that was sent, and has time to live left, is sent again through the same port, with the same routes and
/// ports.
pub fn a_sent_frame_is_sent_again()
    ensures { (routes : Members) (ports : Ports) (frame : List ℕ) (wire port : ℕ) (tagged : Bool)
        → HasAddresses ports → AreBytes frame → let sent = forwarded routes ports frame wire in
        sent.verdict ≡ Send port tagged → 1 < time_to_live (packet_of sent.frame)
        → (forwarded routes ports sent.frame wire).verdict ≡ Send port tagged }
{}

/// With the same routes, a frame is forwarded in the same way whether its lookup was made elsewhere or here.
pub fn a_looked_up_frame_is_forwarded()
    ensures { (routes : Members) (ports : Ports) (frame : List ℕ) (wire : ℕ)
        → let found = lookup_in routes (unwrap_or (destination_in frame) 0) in
        forwarded_by ports.hops.items ports.sources.items found frame wire ≡ forwarded routes ports frame wire }
{}
