//! The exports for a forwarding table's writer: routes, next hops and ports, changed and then published at once. Each
//! call takes the writer out of its handle and puts it back.
ghost use Rattle.std.specs.Prelude.{◌≡◌, ◌⊎◌, IfErr, Ok};
ghost use Rattle.std.specs.FinMap as map_of;
ghost use Rattle.capi.specs.Codes.{Answers};
ghost use Rattle.capi.specs.Fibs.{Adds, AtFib, Clears, Gets, OpensFib, Publishes, Removes, SetsHop, SetsPort};
ghost use Rattle.capi.specs.Fibs.{Settles, SharesAt, Walks, count_of};

use crate::fibs::{
    FibRoute, add, clear, count, get, made, pending, publish, remove, set_hop, set_port, settle,
    share, walk,
};
use crate::handle::Handle;
use crate::keeping::{borrow, give, is_used, share_with};
use crate::object::Object;
use crate::rings::{Fault, answer};
use ipv4::Hop;
use live_routes::{Form, Port};
use std::alloc::Global;

fn open_at(
    alloc: Global,
    h: &mut Handle,
    form: Form,
    bits: u32,
    groups: u32,
    ports: &[Port],
    hops: &[Hop],
) -> Result<u32, Fault>
    ensures { OpensFib result bits groups ports.now hops.now h.old.value h.new.value }
{
    if is_used(alloc, h) {
        return Err(Fault::Used);
    }
    match made(alloc, form, bits, groups, ports, hops) {
        Ok(writer) => give(alloc, Object::Fib(writer), h),
        Err(why) => Err(why),
    }
}

/// A reader in a second handle.
fn share_at(alloc: Global, h: &mut Handle, second: &mut Handle) -> Result<u32, Fault>
    ensures { SharesAt result h.old.value h.new.value second.old.value second.new.value }
{
    share_with!(alloc, h, second, Forward(share))
}

fn add_at(alloc: Global, h: &mut Handle, address: u32, depth: u32, hop: u32) -> Result<u32, Fault>
    ensures { AtFib h.old.value h.new.value result (Adds result address depth hop) }
{
    let Some(mut slot) = borrow(alloc, h) else {
        return Err(Fault::Empty);
    };
    let outcome = add(&mut slot, address, depth, hop);
    *h = Handle::of(slot);
    outcome
}

fn remove_at(alloc: Global, h: &mut Handle, address: u32, depth: u32) -> Result<u32, Fault>
    ensures { AtFib h.old.value h.new.value result (Removes result address depth) }
{
    let Some(mut slot) = borrow(alloc, h) else {
        return Err(Fault::Empty);
    };
    let outcome = remove(&mut slot, address, depth);
    *h = Handle::of(slot);
    outcome
}

fn clear_at(alloc: Global, h: &mut Handle) -> Result<u32, Fault>
    ensures { AtFib h.old.value h.new.value result (Clears result) }
{
    let Some(mut slot) = borrow(alloc, h) else {
        return Err(Fault::Empty);
    };
    let outcome = clear(&mut slot);
    *h = Handle::of(slot);
    outcome
}

fn set_hop_at(alloc: Global, h: &mut Handle, number: u32, hop: &Hop) -> Result<u32, Fault>
    ensures { AtFib h.old.value h.new.value result (SetsHop result number hop.now) }
{
    let Some(mut slot) = borrow(alloc, h) else {
        return Err(Fault::Empty);
    };
    let outcome = set_hop(&mut slot, number, *hop);
    *h = Handle::of(slot);
    outcome
}

fn set_port_at(alloc: Global, h: &mut Handle, number: u32, port: &Port) -> Result<u32, Fault>
    ensures { AtFib h.old.value h.new.value result (SetsPort result number port.now) }
{
    let Some(mut slot) = borrow(alloc, h) else {
        return Err(Fault::Empty);
    };
    let outcome = set_port(&mut slot, number, *port);
    *h = Handle::of(slot);
    outcome
}

fn publish_at(alloc: Global, h: &mut Handle) -> Result<u32, Fault>
    ensures { AtFib h.old.value h.new.value result (Publishes result) }
{
    let Some(mut slot) = borrow(alloc, h) else {
        return Err(Fault::Empty);
    };
    let outcome = publish(&mut slot);
    *h = Handle::of(slot);
    outcome
}

fn settle_at(alloc: Global, h: &mut Handle) -> Result<u32, Fault>
    ensures { AtFib h.old.value h.new.value result (Settles result) }
{
    let Some(mut slot) = borrow(alloc, h) else {
        return Err(Fault::Empty);
    };
    let outcome = settle(&mut slot);
    *h = Handle::of(slot);
    outcome
}

fn pending_at(alloc: Global, h: &mut Handle) -> Result<u32, Fault>
    ensures { AtFib h.old.value h.new.value result (λ r s. (s ≡ r) × (result ≡ Ok (count_of r.pending))) }
{
    let Some(mut slot) = borrow(alloc, h) else {
        return Err(Fault::Empty);
    };
    let outcome = pending(&mut slot);
    *h = Handle::of(slot);
    outcome
}

fn count_at(alloc: Global, h: &mut Handle) -> Result<u32, Fault>
    ensures { AtFib h.old.value h.new.value result
        (λ r s. (s ≡ r) × (result ≡ Ok (count_of (map_of.len r.prepared.members)))) }
{
    let Some(mut slot) = borrow(alloc, h) else {
        return Err(Fault::Empty);
    };
    let outcome = count(&mut slot);
    *h = Handle::of(slot);
    outcome
}

fn get_at(alloc: Global, h: &mut Handle, address: u32, depth: u32) -> Result<u32, Fault>
    ensures { AtFib h.old.value h.new.value result (Gets result address depth) }
{
    let Some(mut slot) = borrow(alloc, h) else {
        return Err(Fault::Empty);
    };
    let outcome = get(&mut slot, address, depth);
    *h = Handle::of(slot);
    outcome
}

fn walk_at(
    alloc: Global,
    h: &mut Handle,
    address: u32,
    depth: u32,
    place: &mut FibRoute,
) -> Result<u32, Fault>
    ensures walked { AtFib h.old.value h.new.value result (Walks result address depth place.old place.new) }
    ensures refused { IfErr result (λ _. place.new ≡ place.old) }
{
    let Some(mut slot) = borrow(alloc, h) else {
        return Err(Fault::Empty);
    };
    let outcome = walk(&mut slot, address, depth, place);
    *h = Handle::of(slot);
    outcome
}

/// Opens a forwarding table without routes, with these ports and next hops: the first level of the routes has 2^`bits`
/// entries, 16 or 24, and they may have `groups` groups. Both copies are whole, or both are sparse. Nothing is
/// prepared.
#[unsafe(no_mangle)]
pub extern "C" fn hkx_fib_open(
    alloc: Global,
    h: &mut Handle,
    whole: bool,
    bits: u32,
    groups: u32,
    ports: &[Port],
    hops: &[Hop],
) -> i64
    ensures { Answers result
        (λ outcome. OpensFib outcome bits groups ports.now hops.now h.old.value h.new.value) }
{
    let form = if whole { Form::Whole } else { Form::Sparse };
    answer(open_at(alloc, h, form, bits, groups, ports, hops))
}

/// Gives a second handle a reader, which may go to another thread.
#[unsafe(no_mangle)]
pub extern "C" fn hkx_fib_share(alloc: Global, h: &mut Handle, second: &mut Handle) -> i64
    ensures { Answers result
        (λ outcome. SharesAt outcome h.old.value h.new.value second.old.value second.new.value) }
{
    answer(share_at(alloc, h, second))
}

/// Prepares a route, or another next hop of its prefix.
#[unsafe(no_mangle)]
pub extern "C" fn hkx_fib_add(
    alloc: Global,
    h: &mut Handle,
    address: u32,
    depth: u32,
    hop: u32,
) -> i64
    ensures { Answers result (λ outcome. AtFib h.old.value h.new.value outcome (Adds outcome address depth hop)) }
{
    answer(add_at(alloc, h, address, depth, hop))
}

/// Prepares the removal of a route.
#[unsafe(no_mangle)]
pub extern "C" fn hkx_fib_remove(alloc: Global, h: &mut Handle, address: u32, depth: u32) -> i64
    ensures { Answers result (λ outcome. AtFib h.old.value h.new.value outcome (Removes outcome address depth)) }
{
    answer(remove_at(alloc, h, address, depth))
}

/// Prepares the removal of all routes.
#[unsafe(no_mangle)]
pub extern "C" fn hkx_fib_clear(alloc: Global, h: &mut Handle) -> i64
    ensures { Answers result (λ outcome. AtFib h.old.value h.new.value outcome (Clears outcome)) }
{
    answer(clear_at(alloc, h))
}

/// Prepares another next hop of a number.
#[unsafe(no_mangle)]
pub extern "C" fn hkx_fib_set_hop(alloc: Global, h: &mut Handle, number: u32, hop: &Hop) -> i64
    ensures { Answers result (λ outcome. AtFib h.old.value h.new.value outcome (SetsHop outcome number hop.now)) }
{
    answer(set_hop_at(alloc, h, number, hop))
}

/// Prepares another port of a number.
#[unsafe(no_mangle)]
pub extern "C" fn hkx_fib_set_port(alloc: Global, h: &mut Handle, number: u32, port: &Port) -> i64
    ensures { Answers result (λ outcome. AtFib h.old.value h.new.value outcome (SetsPort outcome number port.now)) }
{
    answer(set_port_at(alloc, h, number, port))
}

/// Publishes all prepared changes as a new version. Each reader uses it from its next call on, or, if it holds a
/// version, from its first call after the release.
#[unsafe(no_mangle)]
pub extern "C" fn hkx_fib_publish(alloc: Global, h: &mut Handle) -> i64
    ensures { Answers result (λ outcome. AtFib h.old.value h.new.value outcome (Publishes outcome)) }
{
    answer(publish_at(alloc, h))
}

/// Takes the previous copy back from the readers, and repeats the changes of the last version in it. If it returns
/// `Pending` or `Memory`, call it again.
#[unsafe(no_mangle)]
pub extern "C" fn hkx_fib_settle(alloc: Global, h: &mut Handle) -> i64
    ensures { Answers result (λ outcome. AtFib h.old.value h.new.value outcome (Settles outcome)) }
{
    answer(settle_at(alloc, h))
}

/// How many changes readers don't see yet.
#[unsafe(no_mangle)]
pub extern "C" fn hkx_fib_pending(alloc: Global, h: &mut Handle) -> i64
    ensures { Answers result (λ outcome. AtFib h.old.value h.new.value outcome
        (λ r s. (s ≡ r) × (outcome ≡ Ok (count_of r.pending)))) }
{
    answer(pending_at(alloc, h))
}

/// How many routes there are, with those that are prepared.
#[unsafe(no_mangle)]
pub extern "C" fn hkx_fib_count(alloc: Global, h: &mut Handle) -> i64
    ensures { Answers result (λ outcome. AtFib h.old.value h.new.value outcome
        (λ r s. (s ≡ r) × (outcome ≡ Ok (count_of (map_of.len r.prepared.members))))) }
{
    answer(count_at(alloc, h))
}

/// The number of the next hop of exactly this route.
#[unsafe(no_mangle)]
pub extern "C" fn hkx_fib_get(alloc: Global, h: &mut Handle, address: u32, depth: u32) -> i64
    ensures { Answers result (λ outcome. AtFib h.old.value h.new.value outcome (Gets outcome address depth)) }
{
    answer(get_at(alloc, h, address, depth))
}

/// The first route that isn't before this address and depth, in the order of addresses and then of depths.
#[unsafe(no_mangle)]
pub extern "C" fn hkx_fib_walk(
    alloc: Global,
    h: &mut Handle,
    address: u32,
    depth: u32,
    place: &mut FibRoute,
) -> i64
    ensures { Answers result (λ outcome. AtFib h.old.value h.new.value outcome
        (Walks outcome address depth place.old place.new)
        × IfErr outcome (λ _. place.new ≡ place.old)) }
{
    answer(walk_at(alloc, h, address, depth, place))
}
