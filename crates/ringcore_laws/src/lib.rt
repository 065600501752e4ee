//! The protocol of rings that any number of actors share, as definitions and laws (DPDK Programmer's Guide, "Ring
//! Library": a producer or consumer reserves positions, works on them, and then moves the tail in the order of
//! reservation).
//!
//! Nothing runs here. `specs/` defines what a history of atomic steps is, what the reply to each step has to be, and
//! when parties share rings and buffers soundly; the functions of `headline` carry the laws as their contracts.
#![tactic(auto)]

mod contents;
mod headline;
mod party;
mod protocol;

pub use contents::{Item, Items, Numbers};
pub use headline::{
    a_done_settle_keeps_soundness, a_free_ring_has_room, a_granted_reserve_keeps_soundness,
    a_newcomer_keeps_soundness, a_right_history_is_that_of_its_steps, every_buffer_has_one_place,
    every_history_is_sound, every_list_of_steps_is_sound, every_other_step_leaves_the_parties,
    every_refusal_is_true, two_made_one_keep_soundness,
};
pub use party::{Party, Settled};
pub use protocol::{Observed, Place, Reply, Span, Step};
