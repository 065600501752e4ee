//! Calls on a table of routes. Several handles may share one; it changes only while a single handle has it.
ghost use Rattle.std.specs.Prelude.{◌≡◌, ◌<◌, ◌≤◌, ◌⊎◌, IfErr, IfOk, length, take};
ghost use Rattle.lpm.specs.Match.{lookup_in};
ghost use Rattle.lpm.specs.Routes.{IsNew};
ghost use Rattle.capi.specs.Tables.{Adds, FindsTable, LooksUpAll, RefusesTable, Removes, fault_of, hop_found};
ghost use Rattle.capi.specs.Tables.{hop_word, hop_words};

use crate::object::Object;
use crate::rings::Fault;
use lpm::{NextHop, RouteFault, Table};
use std::alloc::Global;
use std::sync::Arc;

/// What a lookup of many addresses writes where no route covers the address.
const NO_HOP: u32 = 0xffff_ffff;

/// How many addresses are looked up together.
const BLOCK: usize = 32;

/// The fault for one of the table's own.
pub(crate) fn fault(why: RouteFault) -> Fault
    ensures { result ≡ fault_of why }
{
    match why {
        RouteFault::BadDepth => Fault::Depth,
        RouteFault::BadHop => Fault::Hop,
        RouteFault::NoGroup => Fault::Groups,
        RouteFault::Memory => Fault::Memory,
        RouteFault::NoRoute => Fault::NoRoute,
    }
}

/// A table without routes. Errors: `Plan` unless `bits` is 16 or 24; `Memory`.
pub(crate) fn made(alloc: Global, bits: u32, groups: u32) -> Result<Arc<Table>, Fault>
    ensures made { IfOk result (λ t. ((bits ≡ 16) ⊎ (bits ≡ 24)) × IsNew t.value bits groups) }
    ensures refused { IfErr result (λ why. RefusesTable bits why) }
{
    let first = match bits {
        16 => 16,
        24 => 24,
        _ => return Err(Fault::Plan),
    };
    let Ok(table) = Table::new(alloc, first, groups) else {
        return Err(Fault::Memory);
    };
    match Arc::new(alloc, table) {
        Ok(shared) => Ok(shared),
        Err(_) => Err(Fault::Memory),
    }
}

/// The table of a handle, for a second handle.
pub(crate) fn shared(slot: &Option<Object>) -> Result<Arc<Table>, Fault>
    ensures { FindsTable result slot.now }
{
    match slot {
        Some(Object::Routes(table)) => match Arc::try_clone(table) {
            Ok(other) => Ok(other),
            Err(_) => Err(Fault::Memory),
        },
        Some(_) => Err(Fault::Kind),
        None => Err(Fault::Empty),
    }
}

/// Adds a route to a table that no other handle shares.
fn add_alone(table: &mut Table, address: u32, depth: u32, hop: u32) -> Result<u32, Fault>
    ensures { Adds result address depth hop table.old table.new }
{
    let Ok(bits) = u8::try_from(depth) else {
        return Err(Fault::Depth);
    };
    match table.add(address, bits, hop) {
        Ok(()) => Ok(0),
        Err(why) => Err(fault(why)),
    }
}

/// Removes a route from a table that no other handle shares.
fn remove_alone(table: &mut Table, address: u32, depth: u32) -> Result<u32, Fault>
    ensures { Removes result address depth table.old table.new }
{
    let Ok(bits) = u8::try_from(depth) else {
        return Err(Fault::Depth);
    };
    match table.remove(address, bits) {
        Ok(()) => Ok(0),
        Err(why) => Err(fault(why)),
    }
}

/// Adds a route, or changes the next hop of its prefix. Errors: `Shared` if other handles have the table, too; the
/// table's own.
pub(crate) fn add(table: &mut Arc<Table>, address: u32, depth: u32, hop: u32) -> Result<u32, Fault>
    ensures { Adds result address depth hop table.old.value table.new.value }
{
    match Arc::get_mut(table) {
        Some(alone) => add_alone(alone, address, depth, hop),
        None => Err(Fault::Shared),
    }
}

/// Removes a route. Errors: as `add`.
pub(crate) fn remove(table: &mut Arc<Table>, address: u32, depth: u32) -> Result<u32, Fault>
    ensures { Removes result address depth table.old.value table.new.value }
{
    match Arc::get_mut(table) {
        Some(alone) => remove_alone(alone, address, depth),
        None => Err(Fault::Shared),
    }
}

/// The next hop for an address. Errors: `NoRoute`.
pub(crate) fn look_up(table: &Table, address: u32) -> Result<u32, Fault>
    ensures { result ≡ hop_found (lookup_in table.now.members address) }
{
    match table.lookup(address) {
        Some(hop) => Ok(hop),
        None => Err(Fault::NoRoute),
    }
}

/// What a lookup found as 32 bits, or `NO_HOP`.
#[inline]
fn word_of(found: NextHop) -> u32
    ensures { result ≡ hop_word found }
{
    match found.hop() {
        Some(hop) => hop,
        None => NO_HOP,
    }
}

/// The next hops for at most `BLOCK` addresses from one place on, at the same places. It returns the place after them.
fn write_block(table: &Table, addresses: &[u32], hops: &mut [u32], at: usize) -> usize
    requires long { length addresses.now ≡ length hops.old }
    requires below { at < length addresses.now }
    requires before { take at hops.old ≡ take at (hop_words table.now.members addresses.now) }
    ensures long { length hops.new ≡ length hops.old }
    ensures further { at < result }
    ensures fits { result ≤ length addresses.now }
    ensures written { take result hops.new ≡ take result (hop_words table.now.members addresses.now) }
{
    let count = (addresses.len() - at).min(BLOCK);
    let mut places = [NextHop::none(); BLOCK];
    let found = &mut places[..count];
    table.lookup_bulk(&addresses[at..at + count], found);
    for i in 0..count {
        hops[at + i] = word_of(found[i]);
    }
    at + count
}

/// The next hops for addresses, at the same places.
fn write_hops(table: &Table, addresses: &[u32], hops: &mut [u32])
    requires { length addresses.now ≡ length hops.old }
    ensures { hops.new ≡ hop_words table.now.members addresses.now }
{
    let mut at = 0;
    while at < addresses.len() {
        at = write_block(table, addresses, hops, at);
    }
}

/// The next hops for addresses, at the same places. Errors: `Count` if there are not as many places.
pub(crate) fn look_up_in(table: &Table, addresses: &[u32], hops: &mut [u32]) -> Result<u32, Fault>
    ensures { LooksUpAll result addresses.now hops.old hops.new table.now.members }
{
    if addresses.len() != hops.len() {
        return Err(Fault::Count);
    }
    write_hops(table, addresses, hops);
    Ok(0)
}
