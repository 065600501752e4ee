//! The exports for routes.
ghost use Rattle.std.specs.Prelude.{◌≡◌, IfErr};
ghost use Rattle.lpm.specs.Match.{lookup_in};
ghost use Rattle.capi.specs.Codes.{Answers};
ghost use Rattle.capi.specs.Handles.{AtRoutes};
ghost use Rattle.capi.specs.Tables.{Adds, LooksUpAll, OpensTable, Removes, Shares, hop_found};

use crate::handle::Handle;
use crate::keeping::{borrow, give, is_used, share_with, with_new, with_object};
use crate::object::Object;
use crate::rings::{Fault, answer};
use crate::route_tables::{add, look_up, look_up_in, made, remove, shared};
use std::alloc::Global;

/// Gives a second handle the table that a handle has.
fn share_at(alloc: Global, h: &mut Handle, second: &mut Handle) -> Result<u32, Fault>
    ensures { Shares result h.old.value h.new.value second.old.value second.new.value }
{
    share_with!(alloc, h, second, Routes(shared))
}

/// Opens a table without routes: its first level has 2^`bits` entries, 16 or 24, and it may have `groups` groups.
#[unsafe(no_mangle)]
pub extern "C" fn hkx_routes_open(alloc: Global, h: &mut Handle, bits: u32, groups: u32) -> i64
    ensures { Answers result (λ outcome. OpensTable outcome bits groups h.old.value h.new.value) }
{
    with_new!(alloc, h, Routes(made(alloc, bits, groups)))
}

/// Gives a second handle the same table.
#[unsafe(no_mangle)]
pub extern "C" fn hkx_routes_share(alloc: Global, h: &mut Handle, second: &mut Handle) -> i64
    ensures { Answers result
        (λ outcome. Shares outcome h.old.value h.new.value second.old.value second.new.value) }
{
    answer(share_at(alloc, h, second))
}

/// Adds a route, or changes the next hop of its prefix.
#[unsafe(no_mangle)]
pub extern "C" fn hkx_routes_add(
    alloc: Global,
    h: &mut Handle,
    address: u32,
    depth: u32,
    hop: u32,
) -> i64
    ensures { Answers result
        (AtRoutes h.old.value h.new.value (λ t u outcome. Adds outcome address depth hop t u)) }
{
    with_object!(alloc, h, Routes(table) => add(table, address, depth, hop))
}

/// Removes a route.
#[unsafe(no_mangle)]
pub extern "C" fn hkx_routes_remove(alloc: Global, h: &mut Handle, address: u32, depth: u32) -> i64
    ensures { Answers result
        (AtRoutes h.old.value h.new.value (λ t u outcome. Removes outcome address depth t u)) }
{
    with_object!(alloc, h, Routes(table) => remove(table, address, depth))
}

/// The next hop of the longest route that covers an address.
#[unsafe(no_mangle)]
pub extern "C" fn hkx_routes_lookup(alloc: Global, h: &mut Handle, address: u32) -> i64
    ensures { Answers result (AtRoutes h.old.value h.new.value
        (λ t u outcome. (u ≡ t) × (outcome ≡ hop_found (lookup_in t.members address)))) }
{
    with_object!(alloc, h, Routes(table) => look_up(table, address))
}

/// The next hops for addresses, each at its address's place; 2^32 - 1 if no route covers an address.
#[unsafe(no_mangle)]
pub extern "C" fn hkx_routes_lookup_bulk(
    alloc: Global,
    h: &mut Handle,
    addresses: &[u32],
    hops: &mut [u32],
) -> i64
    ensures { Answers result (λ outcome. AtRoutes h.old.value h.new.value
        (λ t u code. (u ≡ t) × LooksUpAll code addresses.now hops.old hops.new t.members) outcome
        × IfErr outcome (λ _. hops.new ≡ hops.old)) }
{
    with_object!(alloc, h, Routes(table) => look_up_in(table, addresses, hops))
}
