//! The machine of shared rings in single atomic steps, without threads: for each ring the numbers in its words and its
//! slots, for each actor its open span and its look, for each buffer where it is. The reply to each step is the one
//! that `ringcore_laws` defines. Nothing is searched: a settle reads and writes one slot and one entry for each of its
//! items and buffers, and the cost of any other step is constant.

ghost use Rattle.std.specs.Prelude.{◌≡◌, ◌∷◌, [], ◌<◌, length, vec_len, IsTrue, ◌↔◌, Err, IfOk, OnErr};
ghost use Rattle.ringcore_laws.specs.History.{reply_to};
ghost use Rattle.ringcore_laws.specs.Place.{place};
ghost use Rattle.ringcore_laws.specs.Runs.{IsPlan};
ghost use Rattle.ringcore.specs.Runs.{ExistAll, IsOnRing, events_of};

use crate::member::Member;
use crate::opening::{fresh_rings, given_members, given_places};
use crate::places::place_at;
use crate::plan::{WorldFault, WorldPlan};
use crate::ring::PlannedRing;
use crate::sides::is_among;
use ringcore_laws::{Place, Reply, Step};
use std::alloc::{AllocError, Global};
use std::collections::VecDeque;

mod steps;

/// Rings and actors, as a history of steps has left them.
#[derive(Drop)]
pub struct World {
    alloc: Global,
    rings: Vec<PlannedRing>,
    members: Vec<Member>,
    /// Where each buffer is, at its number.
    places: Vec<Place>,
}

impl World {
    ghost use Rattle.ringcore.specs.Histories.{AgreesWith, History, IsPlanned, IsRight, IsUnchanged, LeavesBeginning, StepExists, StepsExist, actors_of, followed_by, opened_by, pool_size};
    ghost use Rattle.ringcore.specs.Stepping.{Answers, AnswersAll, AnswersSome, SameCounts, SamePlans};

    /// A world with this plan, before any step. Takes memory.
    ///
    /// Errors: 2 `BadPlan` if the plan may not be opened (`WorldPlan::is_valid`), tested first; 1 `Memory`.
    pub fn new(alloc: Global, plan: WorldPlan) -> Result<World, WorldFault>
        ensures bad_plan { result ≡ Err WorldFault.BadPlan ↔ ¬ IsPlan plan.rings.items plan.actors plan.gifts.items }
        ensures opened { IfOk result (λ world. AgreesWith world (opened_by plan) × IsRight (opened_by plan)) }
    {
        if !plan.is_valid() {
            return Err(WorldFault::BadPlan);
        }
        match World::opened(alloc, plan) {
            Ok(world) => Ok(world),
            Err(_) => Err(WorldFault::Memory),
        }
    }

    fn opened(alloc: Global, plan: WorldPlan) -> Result<World, AllocError>
        requires { IsPlan plan.rings.items plan.actors plan.gifts.items }
        ensures { IfOk result (λ world. AgreesWith world (opened_by plan) × IsRight (opened_by plan)) }
    {
        let rings = fresh_rings(alloc, &plan.rings)?;
        let members = given_members(alloc, plan.actors, &plan.gifts)?;
        let places = given_places(alloc, &plan.gifts)?;
        Ok(World {
            alloc,
            rings,
            members,
            places,
        })
    }

    /// Whether the actor and the ring of a step exist. Takes no memory.
    pub fn has(&self, actor: usize, step: &Step) -> bool
        ensures known { IsTrue result ↔ StepExists self.now actor step.now }
        ensures planned { (h : History) → AgreesWith self.now h → (IsTrue result ↔ IsPlanned h actor step.now) }
    {
        self.exists(actor, step)
    }

    /// Whether the actors and the rings of all steps of a list exist. Takes no memory.
    pub fn has_all(&self, entries: &[(usize, Step)]) -> bool
        ensures { IsTrue result ↔ StepsExist self.now entries.now }
    {
        for k in 0..entries.len() {
            if !self.exists(entries[k].0, &entries[k].1) {
                return false;
            }
        }
        true
    }

    fn exists(&self, actor: usize, step: &Step) -> bool
        ensures { IsTrue result ↔ StepExists self.now actor step.now }
    {
        actor < self.members.len() && is_among(step, self.rings.len())
    }

    /// Where a buffer is. Takes no memory.
    pub fn place(&self, b: u64) -> Place
        ensures { (h : History) → AgreesWith self.now h → IsRight h → result ≡ place (length h.plans) (actors_of h) b }
    {
        place_at(&self.places, b)
    }

    /// Makes one step of an actor. Takes memory for the items of a take, and for nothing else.
    ///
    /// If the world is what a right history leaves, the reply is the one to the step, and the world is then what that
    /// history with this event leaves, which is right again.
    pub fn step(&mut self, actor: usize, step: Step) -> Result<Reply, AllocError>
        requires { StepExists self.old actor step }
        ensures ok { IfOk result (λ reply. (h : History) → AgreesWith self.old h → IsRight h
            → let events = record { actor = actor; step = step; reply = reply } ∷ [] in
            (reply ≡ reply_to h.plans (pool_size h) (actors_of h) actor step)
            × AgreesWith self.new (followed_by h events) × IsRight (followed_by h events)) }
        ensures memory { OnErr result ((h : History) → AgreesWith self.old h → AgreesWith self.new h) }
    {
        // Named, since the proof of `ok` speaks of it.
        let reply = self.step_once(actor, step)?;
        Ok(reply)
    }

    /// Makes a list of steps, each by an actor, and returns the reply to each: the headline. Takes memory as `step`
    /// does, and for the replies.
    ///
    /// If the world is what a right history leaves, the replies are those to the steps, one after another, and the
    /// world is then what that history followed by the list with its replies leaves, which is right again: sound after
    /// each event.
    pub fn run(&mut self, entries: Vec<(usize, Step)>) -> Result<Vec<Reply>, AllocError>
        requires { StepsExist self.old entries.items }
        ensures ok { IfOk result (λ replies. (h : History) → AgreesWith self.old h → IsRight h
            → let events = events_of entries.items replies.items in
            (length replies.items ≡ length entries.items)
            × AgreesWith self.new (followed_by h events) × IsRight (followed_by h events)) }
        ensures memory { OnErr result (LeavesBeginning self.old self.new entries.items) }
    {
        // Named, since the proof of `ok` speaks of them.
        let replies = self.run_all(entries)?;
        Ok(replies)
    }

    /// One step, in terms of the lists that the world keeps.
    fn step_once(&mut self, actor: usize, step: Step) -> Result<Reply, AllocError>
        requires actor { actor < vec_len self.old.members }
        requires ring { IsOnRing (vec_len self.old.rings) step }
        ensures counts { SameCounts self.old self.new }
        ensures plans { SamePlans self.old self.new }
        ensures step { IfOk result (λ reply. Answers self.old self.new actor step reply) }
        ensures memory { OnErr result (IsUnchanged self.old self.new) }
    {
        match step {
            Step::Look(ring, side) => Ok(self.look_step(actor, ring, side)),
            Step::Room(ring, side) => Ok(self.room_step(actor, ring, side)),
            Step::Reserve(ring, side, how, count) => {
                Ok(self.reserve_step(actor, ring, side, how, count))
            }
            Step::SettlePut(ring, items) => Ok(self.put_step(actor, ring, items)),
            Step::SettleTake(ring, count) => {
                let reply = self.take_step(actor, ring, count)?;
                Ok(reply)
            }
            Step::Stash(b) => Ok(self.stash_step(actor, b)),
            Step::Unstash(b) => Ok(self.unstash_step(actor, b)),
        }
    }

    /// A list of steps, in terms of the lists that the world keeps.
    fn run_all(&mut self, entries: Vec<(usize, Step)>) -> Result<Vec<Reply>, AllocError>
        requires { ExistAll (vec_len self.old.members) (vec_len self.old.rings) entries.items }
        ensures run { IfOk result (λ replies. AnswersAll self.old self.new entries.items replies.items []) }
        ensures plans { SamePlans self.old self.new }
        ensures memory { OnErr result (AnswersSome self.old self.new entries.items) }
    {
        let mut replies = Vec::new(self.alloc);
        let mut rest = VecDeque::from(entries);
        while let Some((actor, step)) = rest.pop_front() {
            let reply = self.step_once(actor, step)?;
            replies.push(reply)?;
        }
        Ok(replies)
    }
}
