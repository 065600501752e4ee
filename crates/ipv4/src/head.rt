//! How much of a frame's front decides what becomes of it.
ghost use Rattle.std.specs.Prelude.{◌≡◌, ◌↔◌, ◌⊎◌, IsTrue, length};
ghost use Rattle.ipv4.specs.Head.{HoldsHeader};

use crate::fields::{ETHERNET, SHORTEST, header_len, offset_of};

/// The maximum length of a tagged frame up to the end of its header.
pub(crate) const MAX_HEAD: usize = 78;

/// Whether `head` is the whole frame of `len` bytes, or contains its whole header.
#[inline]
pub(crate) fn is_enough(head: &[u8], len: usize) -> bool
    ensures { IsTrue result ↔ ((length head.now ≡ len) ⊎ HoldsHeader head.now) }
{
    head.len() == len || holds_header(head)
}

/// Whether the front of a frame has its whole header.
#[inline]
fn holds_header(head: &[u8]) -> bool
    ensures { IsTrue result ↔ HoldsHeader head.now }
{
    if head.len() < ETHERNET + SHORTEST {
        return false;
    }
    let at = offset_of(head);
    if head.len() < at + SHORTEST {
        return false;
    }
    let packet = head.split_at(at).1;
    header_len(packet) <= packet.len()
}
