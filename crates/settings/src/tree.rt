//! The tree of a document, and reading values in it.

ghost use Rattle.std.specs.Prelude.{◌≡◌, IfOk, map, option_map};
ghost use Rattle.toml.specs.Data.{as_table, get_member};
ghost use Rattle.toml.specs.View.{view, table_view};
ghost use Rattle.settings.specs.Lists.{each_of};
ghost use Rattle.settings.specs.Faults.{Gives};
ghost use Rattle.settings.specs.Documents.{tree_of, natural_of, tables_of, text_at, tables_view};
ghost use Rattle.settings.specs.Faults.{value_or};
ghost use Rattle.settings.specs.declared.fault.SettingsFault.TheVariants.{NotToml};

use crate::fault::SettingsFault;
use std::alloc::{AllocError, Global};
use toml::{Table, Value};

/// The tree of a TOML document without a byte order mark.
pub fn tree(alloc: Global, text: &str) -> Result<Table, SettingsFault>
    ensures { Gives table_view result (value_or NotToml (tree_of text.now)) }
{
    if text.as_bytes().starts_with(&[0xEF, 0xBB, 0xBF]) {
        return Err(SettingsFault::NotToml);
    }
    match toml::table_from_str(alloc, text) {
        Ok(tree) => Ok(tree),
        Err(error) if error.is_memory() => Err(SettingsFault::Memory),
        Err(_) => Err(SettingsFault::NotToml),
    }
}

/// The value at a key of a table.
pub fn member<'a>(table: &'a Table, key: &str) -> Option<&'a Value>
    ensures { option_map (λ v. view v.now) result ≡ get_member key.now (table_view table.now) }
{
    table.get(key)
}

/// The text at a key of a table.
pub fn text_at<'a>(table: &'a Table, key: &str) -> Option<&'a str>
    ensures { option_map (λ s. s.now) result ≡ text_at key.now (table_view table.now) }
{
    match member(table, key) {
        Some(value) => value.as_str(),
        None => None,
    }
}

/// An integer that isn't negative.
pub fn natural(value: &Value) -> Option<u64>
    ensures { result ≡ natural_of (view value.now) }
{
    match value.as_integer() {
        Some(n) if n >= 0 => Some(n as u64),
        _ => None,
    }
}

/// The tables of an array of tables.
pub fn tables(alloc: Global, value: &Value) -> Result<Option<Vec<&Table>>, AllocError>
    ensures { IfOk result (λ tables. option_map (λ v. tables_view v.items) tables ≡ tables_of (view value.now)) }
{
    match value.as_array() {
        Some(array) => all_tables(alloc, array.as_slice()),
        None => Ok(None),
    }
}

/// Values as tables, if all of them are tables.
fn all_tables(alloc: Global, values: &[Value]) -> Result<Option<Vec<&Table>>, AllocError>
    ensures { IfOk result (λ tables. option_map (λ v. tables_view v.items) tables
        ≡ each_of as_table (map view values.now)) }
{
    let mut tables = Vec::new(alloc);
    for value in values {
        match value.as_table() {
            Some(table) => tables.push(table)?,
            None => return Ok(None),
        }
    }
    Ok(Some(tables))
}
