// The walk of a whole table.
ghost use Rattle.std.specs.Prelude.{◌≡◌, ◌++◌, codes, ⊤};
ghost use Rattle.toml.specs.View.{view, array_view, table_view};
ghost use Rattle.manifest_model.specs.Places.{place_text, Checks};
ghost use Rattle.manifest_model.specs.Walk.{walk, walk_items, walk_members, walk_table};

use crate::fault::ManifestFault;
use crate::places::Place;
use std::alloc::Global;
use toml::Table;
use toml::value::{Array, Value};

// How deep a value may stand.
const DEEPEST: u32 = 32;

#[cycle(walk)]
fn walk<'a>(
    alloc: Global,
    place: &'a Place<'a>,
    depth: u32,
    value: &'a Value,
) -> Result<(), ManifestFault>
    ensures { Checks (walk depth (place_text place.now) (view value.now)) (λ _. ⊤) result }
{
    if depth > DEEPEST {
        return Err(place.bad_field(alloc));
    }
    match value {
        Value::Float(_) => Err(place.bad_field(alloc)),
        Value::Datetime(_) => Err(place.bad_field(alloc)),
        Value::Array(items) => walk_items(alloc, place, depth + 1, items),
        Value::Table(members) => walk_members(alloc, place, depth + 1, members),
        Value::String(_) => Ok(()),
        Value::Integer(_) => Ok(()),
        Value::Boolean(_) => Ok(()),
    }
}

#[cycle(walk)]
fn walk_items<'a>(
    alloc: Global,
    place: &'a Place<'a>,
    depth: u32,
    items: &'a Array,
) -> Result<(), ManifestFault>
    ensures { Checks (walk_items depth (place_text place.now) 0 (array_view items.now)) (λ _. ⊤) result }
{
    'items: for (k, item) in items.iter().enumerate() {
        walk(alloc, &Place::Item(place, k), depth, item)?;
    }
    Ok(())
}

#[cycle(walk)]
fn walk_members<'a>(
    alloc: Global,
    place: &'a Place<'a>,
    depth: u32,
    members: &'a Table,
) -> Result<(), ManifestFault>
    ensures { Checks (walk_members depth (place_text place.now ++ codes ".") (table_view members.now)) (λ _. ⊤) result }
{
    'members: for (key, value) in members.iter() {
        walk(alloc, &Place::Key(place, key.as_str()), depth, value)?;
    }
    Ok(())
}

/// Walks a whole table: a float, a date-time, or a value nested deeper than 32 is refused.
pub(crate) fn walk_table(alloc: Global, table: &Table) -> Result<(), ManifestFault>
    ensures { Checks (walk_table (table_view table.now)) (λ _. ⊤) result }
{
    for (key, value) in table.iter() {
        walk(alloc, &Place::Path(key.as_str()), 1, value)?;
    }
    Ok(())
}
