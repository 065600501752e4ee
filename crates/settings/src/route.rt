//! A route of a document: the table of the array `route` that is to be added next.

ghost use Rattle.std.specs.Prelude.{◌≡◌, ◌<◌, IfOk, IfSome};
ghost use Rattle.toml.specs.View.{table_view};
ghost use Rattle.lpm.specs.Prefixes.{IsDepth};
ghost use Rattle.settings.specs.Routing.{port_at, route_of};

use crate::texts::{mac, prefix};
use crate::tree::{member, natural, text_at};
use ipv4::Hop;
use std::alloc::{AllocError, Global};
use toml::Table;

/// A route: the first `depth` bits of an address, and where matching packets go.
#[derive(Clone, Copy)]
pub struct Route {
    pub address: u32,
    pub depth: u8,
    pub hop: Hop,
}

/// The route in a table, to one of `ports` ports, if nothing in it is missing or invalid.
pub fn read_route(alloc: Global, ports: u32, table: &Table) -> Result<Option<Route>, AllocError>
    ensures value { IfOk result (λ route. route ≡ route_of ports (table_view table.now)) }
    ensures depth { IfOk result (λ route. IfSome route (λ r. IsDepth r.depth)) }
{
    let Some(text) = text_at(table, "prefix") else {
        return Ok(None);
    };
    let Some((address, depth)) = prefix(alloc, text.as_bytes())? else {
        return Ok(None);
    };
    let Some(port) = port(ports, table) else {
        return Ok(None);
    };
    let Some(to) = text_at(table, "to") else {
        return Ok(None);
    };
    let Some(to) = mac(alloc, to.as_bytes())? else {
        return Ok(None);
    };
    Ok(Some(Route {
        address,
        depth,
        hop: Hop { port, to },
    }))
}

/// The number at `port`, if it is one of `ports` ports.
fn port(ports: u32, table: &Table) -> Option<u32>
    ensures { result ≡ port_at ports (table_view table.now) }
{
    let value = member(table, "port")?;
    match natural(value) {
        Some(n) if n < u64::from(ports) => Some(n as u32),
        _ => None,
    }
}
