//! A frame whose way was found elsewhere: the destination to look up, the verdict by the way that was found for it, and
//! the rewriting if it is sent. Nothing here knows where the routes are, so that they may be of any table.
ghost use Rattle.std.specs.Prelude.{◌≡◌, ◌≤◌, length};
ghost use Rattle.ipv4.specs.Forwarding.{destination_in, forwarded_along, judged_along};

use crate::fields::{ETHERNET, IPV4, SHORTEST, destination_of, is_tagged, offset_of, word_at};
use crate::judge::checked;
use crate::ports::Way;
use crate::rewrite::rewrite;
use crate::verdicts::{Reason, Verdict};

/// The destination of the frame's packet; `None` if its type isn't that of IPv4, or fewer than 20 bytes of a header are
/// there. Nothing else of the header is tested. Takes no memory.
#[inline]
#[tactic(auto, unfolding(crate::specs::Forwarding::destination_in))]
pub fn destination(frame: &[u8]) -> Option<u32>
    ensures { result ≡ destination_in frame.now }
{
    if frame.len() < ETHERNET {
        return None;
    }
    let at = offset_of(frame);
    if frame.len() < at + SHORTEST {
        return None;
    }
    let packet = frame.split_at(at).1;
    if word_at(frame, at - 2) == IPV4 {
        Some(destination_of(packet))
    } else {
        None
    }
}

/// The way of the frame, or why it is dropped.
#[inline]
#[tactic(auto, unfolding(crate::specs::Forwarding::judged_along))]
fn judge_along(frame: &[u8], wire: usize, way: Option<Way>) -> Result<Way, Reason>
    requires { length frame.now ≤ wire }
    ensures { result ≡ judged_along way frame.now wire }
{
    let _packet = checked(frame, wire)?;
    way.ok_or(Reason::NoRoute)
}

/// The verdict on a frame, where `way` is where the next hop of its `destination` leads; `None` if that leads nowhere.
/// If the frame has no destination, any `way` may be given. Requires: `wire` is at least the number of bytes. Takes no
/// memory.
#[inline]
pub fn verdict_along(frame: &[u8], wire: usize, way: Option<Way>) -> Verdict
    requires { length frame.now ≤ wire }
    ensures { result ≡ (forwarded_along way frame.now wire).verdict }
{
    match judge_along(frame, wire, way) {
        Ok(way) => {
            let tagged = is_tagged(frame);
            Verdict::Send {
                port: way.port,
                tagged,
            }
        }
        Err(reason) => Verdict::Drop(reason),
    }
}

/// The verdict of `verdict_along`, and the frame is rewritten if it is sent. Requires: `wire` is at least the number of
/// bytes. Takes no memory.
#[inline]
pub fn forward_along(frame: &mut [u8], wire: usize, way: Option<Way>) -> Verdict
    requires { length frame.old ≤ wire }
    ensures verdict { result ≡ (forwarded_along way frame.old wire).verdict }
    ensures frame { frame.new ≡ (forwarded_along way frame.old wire).frame }
{
    match judge_along(frame, wire, way) {
        Ok(way) => {
            let tagged = is_tagged(frame);
            rewrite(frame, &way);
            Verdict::Send {
                port: way.port,
                tagged,
            }
        }
        Err(reason) => Verdict::Drop(reason),
    }
}
