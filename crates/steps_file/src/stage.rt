//! How far a steps file has got: what its plan lines named, and the world once there was a step line. So this is where
//! a line that isn't allowed at its place is found.

ghost use Rattle.std.specs.Prelude.{◌≡◌, ℕ, [], IfOk, IfSome, OnOk, Err, Some, None, IsTrue, is_some, true};
ghost use Rattle.ringcore.specs.Histories.{AgreesWith, IsRight};
ghost use Rattle.steps_file.specs.Plans.{named, opened, IsLawful};
ghost use Rattle.steps_file.specs.Replies.{State, start, running, is_step};

mod plan;

use crate::command::{Command, PlanLine};
use crate::world::{answer_place, answer_step};
use command_file::TextFault;
use plan::Draft;
use ringcore::{World, WorldFault};
use ringcore_laws::Step;
use std::alloc::Global;

/// How far a steps file has got.
#[derive(Drop)]
pub struct Stage {
    /// What the plan lines named.
    draft: Draft,
    /// The world that the steps so far have left, once there was a step line.
    world: Option<World>,
}

impl Stage {
    ghost use Rattle.steps_file.specs.Standing.{IsRunning, Keeps, LineAnswered, LineRefused, PlanRefused};
    ghost use Rattle.steps_file.specs.declared.command.Command.TheVariants.{Plan, Act, Ask};

    /// The stage before any line.
    pub fn new(alloc: Global) -> Stage
        ensures { Keeps result start }
    {
        Stage {
            draft: Draft::new(alloc),
            world: None,
        }
    }

    /// Answers the line with this number, by its command if it has one. After an error the stage is of no further use.
    pub fn answer(
        &mut self,
        alloc: Global,
        number: u64,
        command: Option<Command>,
        reply: &mut Vec<u8>,
    ) -> Result<(), TextFault>
        ensures ok { OnOk result ((s : State) → Keeps self.old s
            → LineAnswered s command self.new reply.old.items reply.new.items) }
        ensures bad { (n : ℕ) → result ≡ Err (TextFault.BadLine n) → (s : State) → Keeps self.old s
            → LineRefused s command }
        ensures number { (n : ℕ) → result ≡ Err (TextFault.BadLine n) → n ≡ number }
        ensures plan { result ≡ Err TextFault.BadPlan → (s : State) → Keeps self.old s
            → IsTrue (is_step command) × PlanRefused s }
    {
        match command {
            None => Err(TextFault::BadLine(number)),
            Some(Command::Plan(line)) => self.add(number, line),
            Some(Command::Act(actor, step)) => self.act(alloc, number, actor as usize, step, reply),
            Some(Command::Ask(b)) => self.ask(alloc, b, reply),
        }
    }

    /// Adds a line to the plan.
    fn add(&mut self, number: u64, line: PlanLine) -> Result<(), TextFault>
        ensures ok { OnOk result ((s : State) → Keeps self.old s → LineAnswered s (Some (Plan line)) self.new [] []) }
        ensures bad { (n : ℕ) → result ≡ Err (TextFault.BadLine n) → (s : State) → Keeps self.old s
            → LineRefused s (Some (Plan line)) }
        ensures number { (n : ℕ) → result ≡ Err (TextFault.BadLine n) → n ≡ number }
        ensures plan { result ≡ Err TextFault.BadPlan → ⊥ }
    {
        if self.world.is_some() {
            return Err(TextFault::BadLine(number));
        }
        if self.draft.add(line).is_err() {
            return Err(TextFault::Memory);
        }
        Ok(())
    }

    /// Answers a step of an actor, with a line.
    fn act(
        &mut self,
        alloc: Global,
        number: u64,
        actor: usize,
        step: Step,
        reply: &mut Vec<u8>,
    ) -> Result<(), TextFault>
        ensures ok { OnOk result ((s : State) → Keeps self.old s
            → LineAnswered s (Some (Act actor step)) self.new reply.old.items reply.new.items) }
        ensures bad { (n : ℕ) → result ≡ Err (TextFault.BadLine n) → (s : State) → Keeps self.old s
            → LineRefused s (Some (Act actor step)) }
        ensures number { (n : ℕ) → result ≡ Err (TextFault.BadLine n) → n ≡ number }
        ensures plan { result ≡ Err TextFault.BadPlan → (s : State) → Keeps self.old s → PlanRefused s }
    {
        self.open_world(alloc)?;
        let Some(world) = &mut self.world else {
            unreachable!()
        };
        if !world.has(actor, &step) {
            return Err(TextFault::BadLine(number));
        }
        let rings = self.draft.rings.as_slice();
        if answer_step(world, rings, actor, step, reply).is_err() {
            return Err(TextFault::Memory);
        }
        Ok(())
    }

    /// Answers where a buffer is, with a line.
    fn ask(&mut self, alloc: Global, b: u64, reply: &mut Vec<u8>) -> Result<(), TextFault>
        ensures ok { OnOk result ((s : State) → Keeps self.old s
            → LineAnswered s (Some (Ask b)) self.new reply.old.items reply.new.items) }
        ensures never { (n : ℕ) → result ≡ Err (TextFault.BadLine n) → ⊥ }
        ensures plan { result ≡ Err TextFault.BadPlan → (s : State) → Keeps self.old s → PlanRefused s }
    {
        self.open_world(alloc)?;
        let Some(world) = &self.world else {
            unreachable!()
        };
        if answer_place(world, b, reply).is_err() {
            return Err(TextFault::Memory);
        }
        Ok(())
    }

    /// Checks the plan, unless a step line did.
    pub fn judge(&mut self, alloc: Global) -> Result<(), TextFault>
        ensures ok { OnOk result ((s : State) → Keeps self.old s → IsLawful s.plan) }
        ensures never { (n : ℕ) → result ≡ Err (TextFault.BadLine n) → ⊥ }
        ensures plan { result ≡ Err TextFault.BadPlan → (s : State) → Keeps self.old s → PlanRefused s }
    {
        self.open_world(alloc)
    }

    /// Opens the world of the plan, unless a step line did. It stays in its place: a step doesn't move the world.
    fn open_world(&mut self, alloc: Global) -> Result<(), TextFault>
        ensures there { OnOk result (is_some self.new.world ≡ true) }
        ensures opened { OnOk result ((s : State) → Keeps self.old s
            → IfSome self.new.world (λ world. IsRunning s.plan world (running s))) }
        ensures kept { self.new.draft ≡ self.old.draft }
        ensures never { (n : ℕ) → result ≡ Err (TextFault.BadLine n) → ⊥ }
        ensures plan { result ≡ Err TextFault.BadPlan → (s : State) → Keeps self.old s → PlanRefused s }
    {
        if self.world.is_some() {
            return Ok(());
        }
        self.open_first(alloc)
    }

    /// Opens the world of the plan. Called once per file: without it, what a step calls stays small.
    #[inline(never)]
    fn open_first(&mut self, alloc: Global) -> Result<(), TextFault>
        requires { self.old.world ≡ None }
        ensures there { OnOk result (is_some self.new.world ≡ true) }
        ensures opened { OnOk result ((s : State) → Keeps self.old s
            → IfSome self.new.world (λ world. IsRunning s.plan world (running s))) }
        ensures kept { self.new.draft ≡ self.old.draft }
        ensures never { (n : ℕ) → result ≡ Err (TextFault.BadLine n) → ⊥ }
        ensures plan { result ≡ Err TextFault.BadPlan → (s : State) → Keeps self.old s → PlanRefused s }
    {
        self.world = Some(open(alloc, &self.draft)?);
        Ok(())
    }
}

/// Opens the world of a plan.
fn open(alloc: Global, draft: &Draft) -> Result<World, TextFault>
    ensures lawful { OnOk result (IsLawful (named draft.now)) }
    ensures opened { IfOk result (λ world. AgreesWith world (opened (named draft.now))
        × IsRight (opened (named draft.now))) }
    ensures never { (n : ℕ) → result ≡ Err (TextFault.BadLine n) → ⊥ }
    ensures plan { result ≡ Err TextFault.BadPlan → ¬ IsLawful (named draft.now) }
{
    match draft.open(alloc) {
        Ok(world) => Ok(world),
        Err(WorldFault::BadPlan) => Err(TextFault::BadPlan),
        Err(WorldFault::Memory) => Err(TextFault::Memory),
    }
}
