// Fields of a table.
ghost use Rattle.std.specs.Prelude.{◌≡◌, Some, option_map, ⊤};
ghost use Rattle.toml.specs.Data.{as_str, as_array, as_table, get_member, no_members};
ghost use Rattle.toml.specs.View.{view, array_view, table_view};
ghost use Rattle.manifest_model.specs.Places.{place_text, Checks};
ghost use Rattle.manifest_model.specs.Fields.{wants, needs, text_or, field_in, members_in, bytes_of, seen_value};

use crate::fault::ManifestFault;
use crate::places::Place;
use hex::FromHex;
use std::alloc::Global;
use toml::Table;
use toml::value::{Array, Value};

/// The value at a key.
pub(crate) fn member<'t>(table: &'t Table, key: &str) -> Option<&'t Value>
    ensures { seen_value result ≡ get_member key.now (table_view table.now) }
{
    table.get(key)
}

/// The text of a value, which must be a string.
pub(crate) fn text_in<'v>(
    alloc: Global,
    place: &Place<'_>,
    value: &'v Value,
) -> Result<&'v str, ManifestFault>
    ensures { Checks (needs as_str (place_text place.now) (Some (view value.now))) (λ text. as_str (view value.now) ≡ Some text.now) result }
{
    match value.as_str() {
        Some(text) => Ok(text),
        None => Err(place.bad_field(alloc)),
    }
}

/// The text of a field, which must be a string where it is there.
pub(crate) fn wanted_text<'v>(
    alloc: Global,
    place: &Place<'_>,
    field: Option<&'v Value>,
) -> Result<Option<&'v str>, ManifestFault>
    ensures { Checks (wants as_str (place_text place.now) (seen_value field.entry)) (λ found. option_map (λ text. text.now) found ≡ field_in as_str (seen_value field.entry)) result }
{
    match field {
        None => Ok(None),
        Some(value) => Ok(Some(text_in(alloc, place, value)?)),
    }
}

/// The text of a field, which must be a string where it is there, or a default.
pub(crate) fn text_or<'v>(
    alloc: Global,
    place: &Place<'_>,
    field: Option<&'v Value>,
    default: &'v str,
) -> Result<&'v str, ManifestFault>
    ensures { Checks (wants as_str (place_text place.now) (seen_value field.entry)) (λ text. text.now ≡ text_or default.now (seen_value field.entry)) result }
{
    match field {
        None => Ok(default),
        Some(value) => text_in(alloc, place, value),
    }
}

/// The text of a field, which must be there and be a string.
pub(crate) fn needed_text<'v>(
    alloc: Global,
    place: &Place<'_>,
    field: Option<&'v Value>,
) -> Result<&'v str, ManifestFault>
    ensures { Checks (needs as_str (place_text place.now) (seen_value field.entry)) (λ text. Some text.now ≡ field_in as_str (seen_value field.entry)) result }
{
    match field {
        None => Err(place.bad_field(alloc)),
        Some(value) => text_in(alloc, place, value),
    }
}

/// The items of a field, which must be a list where it is there.
pub(crate) fn wanted_list<'v>(
    alloc: Global,
    place: &Place<'_>,
    field: Option<&'v Value>,
) -> Result<Option<&'v Array>, ManifestFault>
    ensures { Checks (wants as_array (place_text place.now) (seen_value field.entry)) (λ found. option_map (λ items. array_view items.now) found ≡ field_in as_array (seen_value field.entry)) result }
{
    let Some(value) = field else {
        return Ok(None);
    };
    match value.as_array() {
        Some(items) => Ok(Some(items)),
        None => Err(place.bad_field(alloc)),
    }
}

/// The members of a field, which must be a table where it is there; `absent` stands for none.
pub(crate) fn wanted_table<'v>(
    alloc: Global,
    place: &Place<'_>,
    field: Option<&'v Value>,
    absent: &'v Table,
) -> Result<&'v Table, ManifestFault>
    requires { table_view absent.now ≡ no_members }
    ensures { Checks (wants as_table (place_text place.now) (seen_value field.entry)) (λ members. table_view members.now ≡ members_in (seen_value field.entry)) result }
{
    let Some(value) = field else {
        return Ok(absent);
    };
    match value.as_table() {
        Some(members) => Ok(members),
        None => Err(place.bad_field(alloc)),
    }
}

/// The value must be a table.
pub(crate) fn need_table(
    alloc: Global,
    place: &Place<'_>,
    value: &Value,
) -> Result<(), ManifestFault>
    ensures { Checks (needs as_table (place_text place.now) (Some (view value.now))) (λ _. ⊤) result }
{
    if value.is_table() {
        Ok(())
    } else {
        Err(place.bad_field(alloc))
    }
}

/// The bytes that a text of exactly as many pairs of hexadecimal digits spells.
pub(crate) fn bytes_of<const N: usize>(text: &str) -> Option<[u8; N]>
    ensures { result ≡ bytes_of N text.now }
{
    <[u8; N] as FromHex>::from_hex(text).ok()
}
