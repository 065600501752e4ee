//! Rings of words, for calls from C: a hand with its rings in one value, and the calls on it.
//!
//! `member` is a thread's hand on a set of rings, `opening` and `making` make it, `splitting` makes one for another
//! thread, `member_calls` looks at rings, `closing` and `ending` close them. `reaching` finds the ring that a call is
//! on. `whole_calls` puts and takes words in one call; `span_calls` peeks and finishes, through `peeking` and
//! `finishing`; `holding` has the calls on a side that is held. `end` is a side of a ring that a hand opened to move
//! words one by one, `ends` opens and holds it, `end_calls` has its puts and takes. Below these `starting` and
//! `settling` are the two halves of a call. `word64` is a word, and `fault` what calls return.
mod closing;
mod end;
mod end_calls;
mod ending;
mod ends;
mod fault;
mod finishing;
mod holding;
mod making;
mod member;
mod member_calls;
mod opening;
mod peeking;
mod reaching;
mod settling;
mod span_calls;
mod splitting;
mod starting;
mod whole_calls;
mod word64;

pub(crate) use closing::Leftover;
pub(crate) use end_calls::{
    end_put, end_take, is_put_recent, is_take_recent, put_on_held, put_when_open, take_on_held,
    take_when_open,
};
pub(crate) use ending::{close, drain};
pub(crate) use ends::{hold_end, open_end, release_end};
pub(crate) use fault::{Fault, answer};
pub(crate) use holding::{advance_put, advance_take, hold_take, release_take};
pub(crate) use making::open;
pub(crate) use member::{MAX_WORDS, Member};
pub(crate) use member_calls::{clamped, look, queued_or_room, side_of};
pub(crate) use opening::Asked;
pub(crate) use span_calls::{finish_put_of, finish_take_of, peek_put_of, peek_take_of};
pub(crate) use splitting::{spare_fault, split};
pub(crate) use starting::fault_of;
pub(crate) use whole_calls::{how, put_word, put_words, take_word, take_words};
pub(crate) use word64::Word64;
