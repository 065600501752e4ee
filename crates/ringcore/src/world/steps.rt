//! The steps of the machine, one function each, in terms of the lists that a world keeps.

ghost use Rattle.std.specs.Prelude.{◌≡◌, ◌<◌, is_some, vec_len, if◌then◌else◌, slice_set, IfOk, OnErr};
ghost use Rattle.geom.specs.Plan.{mode_of};
ghost use Rattle.ringcore_laws.specs.declared.contents.Item.{Item as AnItem};
ghost use Rattle.ringcore_laws.specs.declared.protocol.Reply.TheVariants.{NoSpan, NotYours, Seen};
ghost use Rattle.ringcore_laws.specs.declared.protocol.Place.TheVariants.{Cached, Held};
ghost use Rattle.ringcore_laws.specs.RingSide.{RingSide};
ghost use Rattle.ringcore_laws.specs.HeadTailRule.{RuledSide};
ghost use Rattle.ringcore_laws.specs.History.{Actor, look_reply, room_reply, reserve_seen as seen_reply, seen_on, other_side};
ghost use Rattle.ringcore.specs.Agree.{WordsAgree};
ghost use Rattle.ringcore.specs.Changes.{side_words, member_looked, member_asked, member_tried, ring_tried, PutResult, TakeResult};
ghost use Rattle.ringcore.specs.Entries.{entry, is_cached_at, is_held_at};
ghost use Rattle.ringcore.specs.Replies.{TailFits, put_answer, take_answer};
ghost use Rattle.ringcore.specs.Histories.{IsUnchanged};
ghost use Rattle.ringcore.specs.Stepping.{BothSet, FoundAt, MemberAt, RingAt, SameCounts, SameMembers, SamePlaces, SamePlans, SameRings, SetMember, SetRing};

use super::World;
use crate::looking::{look, room};
use crate::marking::{stash, unstash};
use crate::reserving::reserve;
use crate::settling::{settle_put, settle_take};
use geom::{How, Side};
use ringcore_laws::{Items, Reply};
use std::alloc::AllocError;

impl World {
    /// Loads the own word of a side.
    pub(super) fn look_step(&mut self, actor: usize, ring: usize, side: Side) -> Reply
        requires actor { actor < vec_len self.old.members }
        requires ring { ring < vec_len self.old.rings }
        ensures counts { SameCounts self.old self.new }
        ensures kept { SameRings self.old self.new }
        ensures places { SamePlaces self.old self.new }
        ensures member { MemberAt self.old actor (λ m.
            SetMember self.old self.new actor (member_looked m ring side result)) }
        ensures reply { FoundAt self.old actor ring (λ m plan r. (l : RingSide AnItem) (a : Actor)
            → RuledSide plan.geometry (mode_of plan side) l → WordsAgree (mode_of plan side) l (side_words r side)
            → a.party.span ≡ m.span
            → result ≡ look_reply plan.geometry (mode_of plan side) l a) }
    {
        let there = &self.rings[ring];
        look(
            &there.plan,
            &there.ring,
            ring,
            side,
            &mut self.members[actor],
        )
    }

    /// Loads the tail of the other side.
    pub(super) fn room_step(&mut self, actor: usize, ring: usize, side: Side) -> Reply
        requires actor { actor < vec_len self.old.members }
        requires ring { ring < vec_len self.old.rings }
        ensures counts { SameCounts self.old self.new }
        ensures kept { SameRings self.old self.new }
        ensures places { SamePlaces self.old self.new }
        ensures member { MemberAt self.old actor (λ m. SetMember self.old self.new actor (member_asked m result)) }
        ensures reply { MemberAt self.old actor (λ m. RingAt self.old ring (λ r. (l : RingSide AnItem) (a : Actor)
            → l.len ≡ (side_words r (other_side side)).tail → a.party.span ≡ m.span → a.observed ≡ m.observed
            → result ≡ room_reply ring side l a)) }
    {
        room(&self.rings[ring].ring, ring, side, &mut self.members[actor])
    }

    /// Exchanges the own word of a side, if it is still the one looked at.
    pub(super) fn reserve_step(
        &mut self,
        actor: usize,
        ring: usize,
        side: Side,
        how: How,
        count: u64,
    ) -> Reply
        requires actor { actor < vec_len self.old.members }
        requires ring { ring < vec_len self.old.rings }
        ensures counts { SameCounts self.old self.new }
        ensures kept { SamePlans self.old self.new }
        ensures places { SamePlaces self.old self.new }
        ensures member { MemberAt self.old actor (λ m.
            SetMember self.old self.new actor (member_tried m ring side result)) }
        ensures ring { RingAt self.old ring (λ r. SetRing self.old self.new ring (ring_tried r side result)) }
        ensures reply { FoundAt self.old actor ring (λ m plan r. (l : RingSide AnItem)
            → RuledSide plan.geometry (mode_of plan side) l → WordsAgree (mode_of plan side) l (side_words r side)
            → TailFits plan m.observed
            → result ≡ (if is_some m.span then NoSpan
            else seen_reply plan side how count l m.count (seen_on ring side m.observed))) }
    {
        let plan = self.rings[ring].plan;
        reserve(
            &plan,
            &mut self.rings[ring].ring,
            ring,
            side,
            how,
            count,
            &mut self.members[actor],
        )
    }

    /// Publishes items at the positions of the own open put span.
    pub(super) fn put_step(&mut self, actor: usize, ring: usize, items: Items) -> Reply
        requires actor { actor < vec_len self.old.members }
        requires ring { ring < vec_len self.old.rings }
        ensures counts { SameCounts self.old self.new }
        ensures kept { SamePlans self.old self.new }
        ensures reply { FoundAt self.old actor ring (λ m plan r.
            result ≡ put_answer plan ring r.put.tail m.number self.old.places.items items m.span) }
        ensures settled { FoundAt self.old actor ring (λ m plan r. BothSet self.old self.new actor ring (λ n y.
            PutResult plan ring m n r y self.old.places.items self.new.places.items items result)) }
    {
        let plan = self.rings[ring].plan;
        settle_put(
            self.alloc,
            &plan,
            &mut self.rings[ring].ring,
            ring,
            items,
            &mut self.members[actor],
            &mut self.places,
        )
    }

    /// Dequeues the items at the first positions of the own open take span.
    pub(super) fn take_step(
        &mut self,
        actor: usize,
        ring: usize,
        count: u64,
    ) -> Result<Reply, AllocError>
        requires actor { actor < vec_len self.old.members }
        requires ring { ring < vec_len self.old.rings }
        ensures counts { SameCounts self.old self.new }
        ensures kept { SamePlans self.old self.new }
        ensures reply { IfOk result (λ x. FoundAt self.old actor ring (λ m plan r.
            x ≡ take_answer plan ring r.take.tail r.queue.items count m.span)) }
        ensures settled { IfOk result (λ x. FoundAt self.old actor ring (λ m plan r.
            BothSet self.old self.new actor ring (λ n y.
            TakeResult plan m n r y self.old.places.items self.new.places.items count x))) }
        ensures memory { OnErr result (IsUnchanged self.old self.new) }
    {
        let plan = self.rings[ring].plan;
        let reply = settle_take(
            self.alloc,
            &plan,
            &mut self.rings[ring].ring,
            ring,
            count,
            &mut self.members[actor],
            &mut self.places,
        )?;
        Ok(reply)
    }

    /// Marks a buffer as cached.
    pub(super) fn stash_step(&mut self, actor: usize, b: u64) -> Reply
        ensures counts { SameCounts self.old self.new }
        ensures kept { SameRings self.old self.new }
        ensures members { SameMembers self.old self.new }
        ensures reply { result ≡ (if is_held_at actor (entry self.old.places.items b) then Seen b else NotYours) }
        ensures places { self.new.places.items ≡ (if is_held_at actor (entry self.old.places.items b)
            then slice_set self.old.places.items b (Cached actor) else self.old.places.items) }
    {
        stash(&mut self.places, actor, b)
    }

    /// Marks a buffer as held again.
    pub(super) fn unstash_step(&mut self, actor: usize, b: u64) -> Reply
        ensures counts { SameCounts self.old self.new }
        ensures kept { SameRings self.old self.new }
        ensures members { SameMembers self.old self.new }
        ensures reply { result ≡ (if is_cached_at actor (entry self.old.places.items b) then Seen b else NotYours) }
        ensures places { self.new.places.items ≡ (if is_cached_at actor (entry self.old.places.items b)
            then slice_set self.old.places.items b (Held actor) else self.old.places.items) }
    {
        unstash(&mut self.places, actor, b)
    }
}
