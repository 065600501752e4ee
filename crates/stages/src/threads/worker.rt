//! A worker of a run: it gives each packet its verdict.
ghost use Rattle.std.specs.Prelude.{◌≡◌, ◌<◌, ◌≤◌, [], length, take, vec_len, IfOk, IfErr, IfSome, true, false};
ghost use Rattle.geom.specs.declared.plan.Side.TheVariants.{Take};
ghost use Rattle.fabric.specs.Hands.{IsHandOf, rings_of, view};
ghost use Rattle.fabric.specs.Views.{IsWornAt};
ghost use Rattle.ipv4.specs.Forwarding.{forwarded};
ghost use Rattle.ipv4.specs.Prefetched.{AreLookedUp, IsPrefetched};
ghost use Rattle.ringapi.specs.Holdings.{HasMore};
ghost use Rattle.ringapi.specs.Views.{HasSettled};
ghost use Rattle.stages.specs.Judging.{AllPairs, HasWorked, IsJudged, has_mark, is_mark, until_mark};
ghost use Rattle.stages.specs.Numbers.{item_numbers};
ghost use Rattle.stages.specs.Passing.{AreRings};

use crate::threads::gate::Gate;
use crate::threads::idle::Idle;
use crate::threads::item::RingItem;
use crate::threads::ring_put::put_all;
use crate::threads::rings::{INPUT, OUTPUT, SPAN};
use burst::{Burst, Tagged};
use fabric::{Fabric, Hand, StartFault, Stored};
use geom::How;
use ipv4::{LOOKUPS, Lookups, Ports, Prefetched, presumed_destination};
use lpm::Table;
use ringapi::peek_take_into;
use stages_laws::Run;
use std::sync::Wait;
use std::time::Clock;

/// How a worker ended.
#[derive(Drop)]
pub struct Worked<T: Tagged, S: Stored<T> = Option<T>> {
    /// Its hand.
    pub hand: Hand<T, S>,
    /// Whether it ended because the positions of a ring are used up.
    pub worn: bool,
}

/// What becomes of an item: a packet before its verdict gets it, and any other is unchanged.
fn judge<J: Run, G: Gate>(
    gate: &G,
    item: RingItem<J>,
    table: &Table,
    ports: &Ports,
    prefetched: Option<Prefetched>,
) -> RingItem<J>
    requires prefetched { IfSome prefetched (IsPrefetched table.now.members) }
    requires rules { forwarded table.now.members ports.now ≡ J.forwarding }
    requires ports { vec_len ports.now.sources ≡ length J.before }
    ensures judged { IsJudged J.forwarding item result }
    ensures mark { is_mark result ≡ is_mark item }
{
    match item {
        RingItem::Before(packet) => {
            let seq = packet.seq;
            gate.enter(seq);
            let judged = packet.judge(table, ports, prefetched);
            gate.leave(seq);
            RingItem::After(judged)
        }
        RingItem::Free(segment) => RingItem::Free(segment),
        RingItem::After(packet) => RingItem::After(packet),
        RingItem::Mark => RingItem::Mark,
    }
}

/// Whether an item is an end mark.
fn is_end<J: Run>(item: &RingItem<J>) -> bool
    ensures { result ≡ is_mark item.now }
{
    match item {
        RingItem::Mark => true,
        RingItem::Free(_) | RingItem::Before(_) | RingItem::After(_) => false,
    }
}

/// How many items there are up to the first end mark, inclusive.
fn first_part<J: Run>(items: &Burst<RingItem<J>, SPAN>) -> usize
    ensures part { take result items.now ≡ until_mark items.now }
    ensures fits { result ≤ length items.now }
{
    for i in 0..items.len() {
        match items.get(i) {
            Some(item) => {
                if is_end(item) {
                    return i + 1;
                }
            }
            None => (),
        }
    }
    items.len()
}

/// Takes items from the input ring into an empty list, as soon as there are some: at most `burst`, and none after the
/// first end mark. Errors: the ring is worn.
fn take_batch<J: Run, R: Wait + Clock>(
    rt: &R,
    f: &Fabric<RingItem<J>, SPAN>,
    mut hand: Hand<RingItem<J>>,
    burst: usize,
    into: &mut Burst<RingItem<J>, SPAN>,
) -> Result<Hand<RingItem<J>>, Hand<RingItem<J>>>
    requires hand { IsHandOf f.now hand }
    requires rings { AreRings (rings_of f.now) }
    requires nonzero { 0 < burst }
    requires at_most { burst ≤ 64 }
    requires empty { into.old ≡ [] }
    ensures hand { IfOk result (IsHandOf f.now) }
    ensures settled { IfOk result (λ h. HasSettled 1 Take into.new (view hand) (view h)) }
    ensures at_most { IfOk result (λ _. length into.new ≤ burst) }
    ensures part { IfOk result (λ _. until_mark into.new ≡ into.new) }
    ensures more { IfOk result (λ h. HasMore item_numbers (view hand).party into.new (view h).party) }
    ensures worn { IfErr result (λ h. IsHandOf f.now h × IsWornAt 256 (view h)) }
{
    let idle = Idle::new();
    for _ in rt.forever() {
        match peek_take_into(f, hand, INPUT, burst, How::Burst, into) {
            Ok(peek) => {
                let k = first_part(into);
                match peek.finish_into(k, into) {
                    Ok(hand) => return Ok(hand),
                    Err(_) => unreachable!(),
                }
            }
            Err((back, StartFault::Worn)) => return Err(back),
            Err((back, _)) => {
                hand = back;
                idle.wait(rt);
            }
        }
    }
    unreachable!()
}

/// Looks up the destinations of packets that have no verdict yet, as far as they are where an untagged frame has them.
fn look_up<J: Run>(items: &Burst<RingItem<J>, SPAN>, table: &Table) -> Lookups
    ensures { AreLookedUp table.now.members result }
{
    let mut addresses = [0; LOOKUPS];
    for i in 0..LOOKUPS {
        match items.get(i) {
            Some(RingItem::Before(packet)) => {
                prove!(packet.chain.segments() > 0);
                addresses[i] = presumed_destination(packet.chain.part(0));
            }
            _ => (),
        }
    }
    Lookups::of(table, addresses)
}

/// Judges items, in order, into an empty list. Returns whether one of them is an end mark.
fn judge_all<J: Run, G: Gate>(
    gate: &G,
    items: &mut Burst<RingItem<J>, SPAN>,
    out: &mut Burst<RingItem<J>, SPAN>,
    table: &Table,
    ports: &Ports,
) -> bool
    requires rules { forwarded table.now.members ports.now ≡ J.forwarding }
    requires ports { vec_len ports.now.sources ≡ length J.before }
    requires empty { out.old ≡ [] }
    ensures judged { AllPairs (IsJudged J.forwarding) items.old out.new }
    ensures left { items.new ≡ [] }
    ensures ended { result ≡ has_mark items.old }
{
    let mut ended = false;
    items.reverse();
    prove!(items.len() <= SPAN);
    let lookups = look_up(items, table);
    while let Some(item) = items.pop() {
        // the index that the item had in the list
        let earlier = lookups.get(items.len());
        ended = ended | is_end(&item);
        out.push(judge(gate, item, table, ports, earlier));
    }
    ended
}

/// A worker: judges packets from the input ring, at most `burst` at a time, and puts them on the output ring in the
/// order in which they came, dropped packets too, until an end mark came and was passed on. A free segment and a packet
/// that already has its verdict are passed on as they are. It waits for packets and for room.
///
/// Requires: the rings are those of a run in threads, and the table and the ports are the run's; `burst` is 1 to 64. It
/// ends early, with `worn`, if the positions of a ring are used up.
pub fn work<J: Run, G: Gate, R: Wait + Clock>(
    rt: &R,
    gate: &G,
    f: &Fabric<RingItem<J>, SPAN>,
    mut hand: Hand<RingItem<J>>,
    burst: usize,
    table: &Table,
    ports: &Ports,
) -> Worked<RingItem<J>>
    requires hand { IsHandOf f.now hand }
    requires rings { AreRings (rings_of f.now) }
    requires nonzero { 0 < burst }
    requires at_most { burst ≤ 64 }
    requires rules { forwarded table.now.members ports.now ≡ J.forwarding }
    requires ports { vec_len ports.now.sources ≡ length J.before }
    ensures hand { IsHandOf f.now result.hand }
    ensures worked { result.worn ≡ false
        → HasWorked J.forwarding (view hand).party.settled (view result.hand).party.settled }
    ensures worn { result.worn ≡ true → IsWornAt 256 (view result.hand) }
{
    let mut items = Burst::<RingItem<J>, SPAN>::new();
    let mut out = Burst::<RingItem<J>, SPAN>::new();
    for _ in rt.forever() {
        hand = match take_batch(rt, f, hand, burst, &mut items) {
            Ok(hand) => hand,
            Err(hand) => return Worked { hand, worn: true },
        };
        let ended = judge_all(gate, &mut items, &mut out, table, ports);
        hand = match put_all(rt, f, hand, OUTPUT, &mut out) {
            Ok(hand) => hand,
            Err(hand) => return Worked { hand, worn: true },
        };
        if ended {
            return Worked { hand, worn: false };
        }
    }
    unreachable!()
}
