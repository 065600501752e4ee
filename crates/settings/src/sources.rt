//! The ports of a document: the array `port`, and the hardware address in each of its tables.

ghost use Rattle.std.specs.Prelude.{◌≡◌, length, IfOk};
ghost use Rattle.toml.specs.Data.{get_member};
ghost use Rattle.toml.specs.View.{table_view};
ghost use Rattle.settings.specs.Keys.{name_of, IsFrom};
ghost use Rattle.settings.specs.Faults.{Gives, each_ok};
ghost use Rattle.settings.specs.Documents.{tables_view};
ghost use Rattle.settings.specs.Settings.{ports_by, source_of, sources_of};
ghost use Rattle.settings.specs.declared.key.Key.TheVariants.{Port};

use crate::fault::SettingsFault;
use crate::key::Key;
use crate::texts::mac;
use crate::tree::{member, tables};
use ipv4::MAX_PORTS;
use std::alloc::Global;
use toml::Table;

/// The hardware addresses of the ports, or their first fault.
#[tactic(auto, unfolding(crate::specs::Settings::sources_of))]
pub fn read_sources(alloc: Global, tree: &Table) -> Result<Vec<[u8; 6]>, SettingsFault>
    ensures value { Gives (λ v. v.items) result (sources_of (table_view tree.now)) }
    ensures count { IfOk result (λ v. IsFrom 1 16 (length v.items)) }
{
    let ports = ports(alloc, tree)?;
    each_source(alloc, ports.as_slice())
}

/// The hardware address of each port, or the first fault.
fn each_source(alloc: Global, ports: &[&Table]) -> Result<Vec<[u8; 6]>, SettingsFault>
    ensures value { Gives (λ v. v.items) result (each_ok source_of (tables_view ports.now)) }
    ensures count { IfOk result (λ v. length v.items ≡ length ports.now) }
{
    let mut sources = Vec::new(alloc);
    for port in ports {
        let source = source(alloc, port)?;
        sources.push(source)?;
    }
    Ok(sources)
}

/// The tables of the array `port`.
fn ports(alloc: Global, tree: &Table) -> Result<Vec<&Table>, SettingsFault>
    ensures value { Gives (λ v. tables_view v.items) result
        (ports_by (get_member (name_of Port) (table_view tree.now))) }
    ensures count { IfOk result (λ v. IsFrom 1 16 (length v.items)) }
{
    let Some(value) = member(tree, Key::Port.name()) else {
        return Err(SettingsFault::Missing(Key::Port));
    };
    match tables(alloc, value)? {
        Some(ports) if ports.is_empty() => Err(SettingsFault::Missing(Key::Port)),
        Some(ports) if ports.len() <= MAX_PORTS => Ok(ports),
        _ => Err(SettingsFault::BadValue(Key::Port)),
    }
}

/// The hardware address of a port.
fn source(alloc: Global, port: &Table) -> Result<[u8; 6], SettingsFault>
    ensures { Gives (λ mac. mac) result (source_of (table_view port.now)) }
{
    let Some(value) = member(port, Key::Mac.name()) else {
        return Err(SettingsFault::Missing(Key::Mac));
    };
    let Some(text) = value.as_str() else {
        return Err(SettingsFault::BadValue(Key::Mac));
    };
    match mac(alloc, text.as_bytes())? {
        Some(mac) => Ok(mac),
        None => Err(SettingsFault::BadValue(Key::Mac)),
    }
}
