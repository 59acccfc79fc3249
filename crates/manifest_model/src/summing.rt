// A table with the sums of its trusted files.
ghost use Rattle.std.specs.Prelude.{◌≡◌, All, IfOk, OnOk, IsSome, MatchOption, codes};
ghost use Rattle.toml.specs.Data.{get_member, table as data_table};
ghost use Rattle.manifest_model.specs.Listed.{sgx};
ghost use Rattle.toml.specs.View.{view, array_view, table_view};
ghost use Rattle.manifest_model.specs.Summed.{FitSums, IsSum, replaced, summed_item, summed_items, with_trusted};

use crate::entries::Trusted;
use crate::fields::member;
use pf_io::Memory;
use std::alloc::Global;
use toml::Table;
use toml::value::{Array, Value};

// A table of a uri and a sum.
fn summed_item(alloc: Global, uri: &str, sum: &[u8; 32]) -> Result<Value, Memory>
    ensures item { IfOk result (λ item. view item ≡ summed_item uri.now sum.now) }
    ensures sum { IsSum sum.now }
{
    let digits = hex::encode(alloc, &sum[..])?;
    let mut fields = Table::new(alloc);
    drop(fields.insert(String::from_str(alloc, "sha256")?, Value::String(digits))?);
    drop(fields.insert(String::from_str(alloc, "uri")?, Value::string(alloc, uri)?)?);
    Ok(Value::Table(fields))
}

// One for each entry.
fn summed_items(alloc: Global, entries: &[Trusted], sums: &[[u8; 32]]) -> Result<Array, Memory>
    requires { FitSums entries.now sums.now }
    ensures items { IfOk result (λ items. array_view items ≡ summed_items entries.now sums.now) }
    ensures sums { OnOk result (All IsSum sums.now) }
{
    let mut items = Array::new(alloc);
    for (k, entry) in entries.iter().enumerate() {
        items.push(summed_item(alloc, entry.uri.as_str(), &sums[k])?)?;
    }
    Ok(items)
}

// A copy of a table.
fn copied(table: &Table) -> Result<Table, Memory>
    ensures { IfOk result (λ made. table_view made ≡ table_view table.now) }
{
    Ok(table.clone()?)
}

// A table, with another value at a key that it has.
fn replaced(alloc: Global, table: Table, key: &str, value: Value) -> Result<Table, Memory>
    requires { IsSome (get_member key.now (table_view «table»)) }
    ensures { IfOk result (λ made. table_view made ≡ replaced key.now (view value) (table_view «table»)) }
{
    let mut made = table;
    drop(made.insert(String::from_str(alloc, key)?, value)?);
    Ok(made)
}

// The table `sgx`, where it has trusted files.
fn trusted_in(table: &Table) -> Option<&Table>
    ensures { MatchOption result (get_member (codes "trusted_files") (sgx (table_view table.now)) ≡ None) (λ found. (get_member (codes "sgx") (table_view table.now) ≡ Some (data_table (table_view found.now))) × IsSome (get_member (codes "trusted_files") (table_view found.now))) }
{
    let sgx = member(table, "sgx")?.as_table()?;
    match member(sgx, "trusted_files") {
        Some(_) => Some(sgx),
        None => None,
    }
}

/// A copy of a table with a list of the entries and their sums in place of its trusted files, where it has them.
#[tactic(auto, unfolding(crate::specs::Summed::with_trusted))]
pub(crate) fn with_sums_of(
    alloc: Global,
    table: &Table,
    entries: &[Trusted],
    sums: &[[u8; 32]],
) -> Result<Table, Memory>
    requires { FitSums entries.now sums.now }
    ensures whole { IfOk result (λ made. table_view made ≡ with_trusted (summed_items entries.now sums.now) (table_view table.now)) }
    ensures sums { OnOk result (IsSome (get_member (codes "trusted_files") (sgx (table_view table.now))) → All IsSum sums.now) }
{
    let Some(sgx) = trusted_in(table) else {
        return copied(table);
    };
    let items = summed_items(alloc, entries, sums)?;
    let sgx = replaced(alloc, copied(sgx)?, "trusted_files", Value::Array(items))?;
    replaced(alloc, copied(table)?, "sgx", Value::Table(sgx))
}
