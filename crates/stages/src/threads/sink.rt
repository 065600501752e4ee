//! The sink of a run in threads: it empties the output ring until each worker has ended.
ghost use Rattle.std.specs.Prelude.{◌≡◌, ◌≤◌, ◌+◌, ℕ, vec_len};
ghost use Rattle.ringcore_laws.specs.FreeRings.{AreSingle};
ghost use Rattle.run_one.specs.Turns.{IsVacant};
ghost use Rattle.stages.specs.Custody.{HoldsOf, in_chain, in_items, in_numbers};
ghost use Rattle.stages.specs.Numbers.{item_numbers};

use crate::stage_fault::StageFault;
use crate::threads::idle::Idle;
use crate::threads::item::RingItem;
use crate::threads::ring_access::RingAccess;
use crate::threads::rings::{OUTPUT, SPAN};
use crate::threads::segments::{give_back, release};
use burst::Burst;
use run_one::{Judged, Sink};
use stages_laws::Run;
use std::io::Write;
use std::sync::Wait;
use std::time::Clock;

/// Releases all packets whose turn it is, and frees their segments.
fn let_go<J: Run, W: Write + Drop, T: Wait + Clock>(
    rt: &T,
    access: &mut RingAccess<'_, RingItem<J>>,
    sink: &mut Sink<J, W>,
    free: &mut Burst<RingItem<J>, SPAN>,
) -> Result<(), StageFault>
    requires yours { HoldsOf access.old.hand free.old sink.old.window (λ _. 0) }
    requires single { AreSingle item_numbers free.old }
    ensures single { AreSingle item_numbers free.new }
    ensures kept { (others : ℕ → ℕ) → HoldsOf access.old.hand free.old sink.old.window others
        → HoldsOf access.new.hand free.new sink.new.window others }
    ensures length { vec_len sink.new.outputs.writers ≡ vec_len sink.old.outputs.writers }
{
    for _ in rt.forever() {
        let Some(chain) = sink.give() else {
            return Ok(());
        };
        release(rt, access, chain, free)?;
    }
    unreachable!()
}

/// Takes a packet: releases it at once if it is its turn, with those that waited for it; otherwise it waits.
fn take_in<J: Run, W: Write + Drop, T: Wait + Clock>(
    rt: &T,
    access: &mut RingAccess<'_, RingItem<J>>,
    sink: &mut Sink<J, W>,
    packet: Judged<J>,
    free: &mut Burst<RingItem<J>, SPAN>,
) -> Result<(), StageFault>
    requires yours { HoldsOf access.old.hand free.old sink.old.window (in_chain packet.chain) }
    requires single { AreSingle item_numbers free.old }
    ensures single { AreSingle item_numbers free.new }
    ensures kept { (others : ℕ → ℕ)
        → HoldsOf access.old.hand free.old sink.old.window (λ b. in_chain packet.chain b + others b)
        → HoldsOf access.new.hand free.new sink.new.window others }
    ensures length { vec_len sink.new.outputs.writers ≡ vec_len sink.old.outputs.writers }
{
    let early = match sink.pass(packet) {
        Ok(chain) => {
            release(rt, access, chain, free)?;
            return let_go(rt, access, sink, free);
        }
        Err(packet) => packet,
    };
    match sink.accept(early) {
        Ok(()) => Ok(()),
        Err(packet) => {
            release(rt, access, packet.chain, free)?;
            Err(StageFault::Window)
        }
    }
}

/// Handles an item from the output ring, and returns whether it is an end mark.
fn handle<J: Run, W: Write + Drop, T: Wait + Clock>(
    rt: &T,
    access: &mut RingAccess<'_, RingItem<J>>,
    sink: &mut Sink<J, W>,
    item: RingItem<J>,
    free: &mut Burst<RingItem<J>, SPAN>,
) -> Result<bool, StageFault>
    requires yours { HoldsOf access.old.hand free.old sink.old.window (in_numbers (item_numbers item)) }
    requires single { AreSingle item_numbers free.old }
    ensures single { AreSingle item_numbers free.new }
    ensures kept { (others : ℕ → ℕ)
        → HoldsOf access.old.hand free.old sink.old.window (λ b. in_numbers (item_numbers item) b + others b)
        → HoldsOf access.new.hand free.new sink.new.window others }
    ensures length { vec_len sink.new.outputs.writers ≡ vec_len sink.old.outputs.writers }
{
    match item {
        RingItem::Mark => Ok(true),
        RingItem::After(packet) => {
            take_in(rt, access, sink, packet, free)?;
            Ok(false)
        }
        RingItem::Free(segment) => {
            release(rt, access, segment.chain, free)?;
            Ok(false)
        }
        RingItem::Before(packet) => {
            release(rt, access, packet.chain, free)?;
            Err(StageFault::Window)
        }
    }
}

/// Reads a byte of each packet. Another thread wrote these bytes, so the processor waits for memory here: for all of
/// them together, and not again and again when each packet is copied. What it returns has no meaning, but if it weren't
/// looked at, the compiler would leave the reads out.
fn touch<J: Run>(items: &Burst<RingItem<J>, SPAN>) -> u64 {
    let mut bytes = 0u64;
    for i in 0..items.len() {
        match items.get(i) {
            Some(RingItem::After(packet)) => {
                prove!(packet.chain.segments() > 0);
                match packet.chain.part(0).first() {
                    Some(byte) => bytes = (bytes << 1) ^ u64::from(*byte),
                    None => (),
                }
            }
            _ => (),
        }
    }
    bytes
}

/// Handles what was received, in order; returns the number of end marks, and the first fault.
fn handle_all<J: Run, W: Write + Drop, T: Wait + Clock>(
    rt: &T,
    access: &mut RingAccess<'_, RingItem<J>>,
    sink: &mut Sink<J, W>,
    items: &mut Burst<RingItem<J>, SPAN>,
    free: &mut Burst<RingItem<J>, SPAN>,
) -> (usize, Result<(), StageFault>)
    requires yours { HoldsOf access.old.hand free.old sink.old.window (in_items items.old) }
    requires single { AreSingle item_numbers free.old }
    ensures single { AreSingle item_numbers free.new }
    ensures kept { HoldsOf access.new.hand free.new sink.new.window (λ _. 0) }
    ensures marks { result.0 ≤ 256 }
    ensures length { vec_len sink.new.outputs.writers ≡ vec_len sink.old.outputs.writers }
{
    let mut marks = 0usize;
    let mut told = Ok(());
    items.reverse();
    for _i in 0..items.len() {
        let Some(item) = items.pop() else {
            return (marks, told);
        };
        match handle(rt, access, sink, item, free) {
            Ok(mark) => {
                if mark {
                    marks += 1;
                }
            }
            Err(fault) => {
                if told.is_ok() {
                    told = Err(fault);
                }
            }
        }
    }
    (marks, told)
}

/// Empties the output ring until it has received as many end marks as there are workers, whatever happens, unless a
/// ring is worn. No packet that it finds stops it: packets continue to come, and their segments are freed.
pub(crate) fn drain<J: Run, W: Write + Drop, T: Wait + Clock>(
    rt: &T,
    access: &mut RingAccess<'_, RingItem<J>>,
    sink: &mut Sink<J, W>,
    workers: usize,
    burst: usize,
) -> Result<(), StageFault>
    requires at_most { workers ≤ 16 }
    requires vacant { IsVacant sink.old.window }
    ensures length { vec_len sink.new.outputs.writers ≡ vec_len sink.old.outputs.writers }
{
    let mut items = Burst::<RingItem<J>, SPAN>::new();
    let mut free = Burst::<RingItem<J>, SPAN>::new();
    let mut left = workers;
    let mut told = Ok(());
    let idle = Idle::new();
    for _ in rt.forever() {
        if left == 0 {
            return told;
        }
        items.clear();
        access.receive(rt, OUTPUT, burst, &mut items)?;
        if items.is_empty() {
            idle.wait_awake(rt);
            continue;
        }
        idle.reset();
        if touch(&items) == u64::MAX {
            idle.wait_awake(rt);
        }
        let (marks, found) = handle_all(rt, access, sink, &mut items, &mut free);
        // a worker passes one mark on; no clause states that there are no more of them than workers
        left = left.saturating_sub(marks);
        let given = give_back(rt, access, &mut free);
        if told.is_ok() {
            told = if found.is_ok() { given } else { found };
        }
    }
    unreachable!()
}
