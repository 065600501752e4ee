//! The routes of a document, added one after another to a table of `lpm`: route i is hop i.

ghost use Rattle.std.specs.Prelude.{◌≡◌, ◌+◌, ◌<◌, ◌≤◌, ◌⊎◌, length, IfOk, OnOk};
ghost use Rattle.toml.specs.Data.{get_member};
ghost use Rattle.toml.specs.View.{table_view};
ghost use Rattle.settings.specs.Keys.{name_of};
ghost use Rattle.settings.specs.Faults.{Gives};
ghost use Rattle.settings.specs.Documents.{tables_view};
ghost use Rattle.settings.specs.Settings.{route_tables_by, next_of, routed_by, routes_of};
ghost use Rattle.settings.specs.Shown.{routed_in};
ghost use Rattle.settings.specs.declared.key.Key.TheVariants.{Route};

use crate::fault::SettingsFault;
use crate::key::Key;
use crate::route::read_route;
use crate::tree::{member, tables};
use ipv4::Hop;
use lpm::RouteFault;
use std::alloc::Global;
use toml::Table;

/// The maximum number of routes.
const MAX_ROUTES: usize = 65536;

/// The table of the routes, and the hops that it names, or the first fault of the routes.
#[tactic(auto, unfolding(crate::specs::Settings::routes_of))]
pub fn read_routes(
    alloc: Global,
    bits: u32,
    groups: u32,
    ports: u32,
    tree: &Table,
) -> Result<(lpm::Table, Vec<Hop>), SettingsFault>
    requires { (bits ≡ 16) ⊎ (bits ≡ 24) }
    ensures value { Gives (λ r. routed_in r.0 r.1) result (routes_of bits groups ports (table_view tree.now)) }
    ensures bits { IfOk result (λ r. r.0.bits ≡ bits) }
    ensures groups { IfOk result (λ r. r.0.limit ≡ groups) }
{
    let entries = entries(alloc, tree)?;
    let mut table = lpm::Table::sparse(alloc, bits as u8, groups)?;
    let mut hops = Vec::new(alloc);
    add_all(alloc, ports, &mut table, &mut hops, entries.as_slice())?;
    Ok((table, hops))
}

/// The tables of the array `route`.
fn entries(alloc: Global, tree: &Table) -> Result<Vec<&Table>, SettingsFault>
    ensures value { Gives (λ v. tables_view v.items) result
        (route_tables_by (get_member (name_of Route) (table_view tree.now))) }
    ensures count { IfOk result (λ v. length v.items ≤ 65536) }
{
    let Some(value) = member(tree, Key::Route.name()) else {
        return Ok(Vec::new(alloc));
    };
    match tables(alloc, value)? {
        Some(entries) if entries.len() <= MAX_ROUTES => Ok(entries),
        _ => Err(SettingsFault::BadValue(Key::Route)),
    }
}

/// Adds the routes of these tables, one after another.
fn add_all(
    alloc: Global,
    ports: u32,
    table: &mut lpm::Table,
    hops: &mut Vec<Hop>,
    entries: &[&Table],
) -> Result<(), SettingsFault>
    requires { length hops.old.items + length entries.now ≤ 65536 }
    ensures value { Gives (λ _. routed_in table.new hops.new) result
        (routed_by table.old.bits table.old.limit ports (routed_in table.old hops.old) (tables_view entries.now)) }
    ensures bits { OnOk result (table.new.bits ≡ table.old.bits) }
    ensures limit { OnOk result (table.new.limit ≡ table.old.limit) }
{
    for entry in entries {
        add(alloc, ports, table, hops, entry)?;
    }
    Ok(())
}

/// Adds the route of a table.
fn add(
    alloc: Global,
    ports: u32,
    table: &mut lpm::Table,
    hops: &mut Vec<Hop>,
    entry: &Table,
) -> Result<(), SettingsFault>
    requires { length hops.old.items < 65536 }
    ensures value { Gives (λ _. routed_in table.new hops.new) result
        (next_of table.old.bits table.old.limit ports (routed_in table.old hops.old) (table_view entry.now)) }
    ensures bits { OnOk result (table.new.bits ≡ table.old.bits) }
    ensures limit { OnOk result (table.new.limit ≡ table.old.limit) }
    ensures longer { OnOk result (length hops.new.items ≡ length hops.old.items + 1) }
{
    let number = hops.len() as u32;
    let Some(route) = read_route(alloc, ports, entry)? else {
        return Err(SettingsFault::BadRoute(number));
    };
    match table.add(route.address, route.depth, number) {
        Ok(()) => (),
        Err(RouteFault::Memory) => return Err(SettingsFault::Memory),
        Err(_) => return Err(SettingsFault::BadRoute(number)),
    }
    hops.push(route.hop)?;
    Ok(())
}
