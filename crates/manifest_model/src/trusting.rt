// The list of trusted files.
ghost use Rattle.std.specs.Prelude.{◌≡◌, Some, None, [], option_map, MatchResult};
ghost use Rattle.std.specs.Option.{option_or};
ghost use Rattle.toml.specs.View.{view, array_view, table_view};
ghost use Rattle.manifest_model.specs.Names.{file_name};
ghost use Rattle.manifest_model.specs.Places.{place_text, Checks, Stops};
ghost use Rattle.manifest_model.specs.Trusting.{is_file, file_refusal, own_refusal, item_of, uri_field, items_refusal, items_of, entries_of, sum_refusal, sum_of};
ghost use Rattle.manifest_model.specs.Fields.{seen_value};
ghost use Rattle.manifest_model.specs.Listed.{trusted_refusal, trusted_of};
ghost use Rattle.manifest_model.specs.Indexing.{Finds, added, entry_sum, clash};

use crate::entries::Trusted;
use crate::fault::ManifestFault;
use crate::fields::{bytes_of, member, need_table, needed_text, text_in, wanted_list, wanted_text};
use crate::names::{ends_in_slash, file_name, names_file, normal_name};
use crate::places::Place;
use pf_io::Text;
use std::alloc::Global;
use std::collections::BTreeMap;
use toml::Table;
use toml::value::{Array, Value};

/// The name of a trusted or allowed file by its uri.
pub(crate) fn file_in(alloc: Global, uri: &str) -> Result<&str, ManifestFault>
    ensures { Checks (file_refusal uri.now) (λ name. file_name uri.now ≡ Some name.now) result }
{
    match file_name(uri) {
        Some(name) if names_file(name) && !ends_in_slash(name) => Ok(name),
        _ => {
            let uri = Text::copy(alloc, uri)?;
            Err(ManifestFault::BadUri { uri })
        }
    }
}

// The sum that a text spells, where there is a text.
fn sum_in(alloc: Global, uri: &str, text: Option<&str>) -> Result<Option<[u8; 32]>, ManifestFault>
    ensures { Checks (sum_refusal uri.now (option_map (λ t. t.now) text.entry)) (λ sum. sum ≡ sum_of (option_map (λ t. t.now) text.entry)) result }
{
    let Some(text) = text else {
        return Ok(None);
    };
    match bytes_of::<32>(text) {
        Some(sum) => Ok(Some(sum)),
        None => {
            let uri = Text::copy(alloc, uri)?;
            Err(ManifestFault::BadSum { uri })
        }
    }
}

// The field that has an item's uri: the item itself, or that of a table.
fn uri_field(item: &Value) -> Option<&Value>
    ensures { seen_value result ≡ uri_field (view item.now) }
{
    match item {
        Value::String(_) => Some(item),
        _ => item.get("uri"),
    }
}

// An item by itself: a string, which is its uri, or a table with a uri and maybe a sum.
#[tactic(auto, unfolding(crate::specs::Trusting::own_refusal, crate::specs::Trusting::item_of))]
fn trusted_item(alloc: Global, place: &Place<'_>, item: &Value) -> Result<Trusted, ManifestFault>
    ensures { Checks (own_refusal (place_text place.now) (view item.now)) (λ t. t ≡ item_of (view item.now)) result }
{
    if !item.is_str() {
        need_table(alloc, place, item)?;
    }
    let uri = needed_text(alloc, &Place::Key(place, "uri"), uri_field(item))?;
    let name = file_in(alloc, uri)?;
    let sum_field = item.get("sha256");
    let text = wanted_text(alloc, &Place::Key(place, "sha256"), sum_field)?;
    let sum = sum_in(alloc, uri, text)?;
    Ok(Trusted {
        uri: Text::copy(alloc, uri)?,
        name: normal_name(alloc, name)?,
        sum,
    })
}

// The sum of an entry with a further item of its name.
fn joined_sum(sum: Option<[u8; 32]>, item: Trusted) -> Result<Option<[u8; 32]>, ManifestFault>
    ensures { MatchResult result (λ joined. (clash sum item ≡ None) × (joined ≡ option_or sum item.sum)) (λ fault. clash sum item ≡ Some fault) }
{
    match (sum, item.sum) {
        (Some(first), Some(second)) if first != second => {
            Err(ManifestFault::TwoSums { uri: item.uri })
        }
        (Some(first), _) => Ok(Some(first)),
        (None, sum) => Ok(sum),
    }
}

// The place of the entry of each name.
type Index = BTreeMap<String, usize>;

// Adds an item to the entries.
fn add(
    alloc: Global,
    entries: &mut Vec<Trusted>,
    index: &mut Index,
    item: Trusted,
) -> Result<(), ManifestFault>
    requires { Finds entries.old.items index.old }
    ensures { MatchResult result (λ _. (clash (entry_sum item.name entries.old.items) item ≡ None) × (entries.new.items ≡ added entries.old.items item) × Finds entries.new.items index.new) (Stops (clash (entry_sum item.name entries.old.items) item)) }
{
    match index.get(item.name.as_str()).copied() {
        Some(at) => {
            let sum = joined_sum(entries[at].sum, item)?;
            entries[at].sum = sum;
            Ok(())
        }
        None => {
            let name = String::from_str(alloc, item.name.as_str())?;
            index.insert(name, entries.len())?;
            entries.push(item)?;
            Ok(())
        }
    }
}

// The entries of a list of items.
fn trusted_items(
    alloc: Global,
    place: &Place<'_>,
    items: &Array,
) -> Result<Vec<Trusted>, ManifestFault>
    ensures { Checks (items_refusal [] (place_text place.now) 0 (array_view items.now)) (λ entries. entries.items ≡ entries_of (items_of (array_view items.now))) result }
{
    let mut entries = Vec::new(alloc);
    let mut index = Index::new(alloc);
    for (k, item) in items.iter().enumerate() {
        let item = trusted_item(alloc, &Place::Item(&*place, k), item)?;
        add(alloc, &mut entries, &mut index, item)?;
    }
    Ok(entries)
}

/// The trusted files of the table `sgx`.
#[tactic(auto, unfolding(crate::specs::Listed::trusted_refusal, crate::specs::Listed::trusted_of))]
pub(crate) fn trusted_of(alloc: Global, sgx: &Table) -> Result<Vec<Trusted>, ManifestFault>
    ensures { Checks (trusted_refusal (table_view sgx.now)) (λ entries. entries.items ≡ trusted_of (table_view sgx.now)) result }
{
    let place = Place::Path("sgx.trusted_files");
    match wanted_list(alloc, &place, member(sgx, "trusted_files"))? {
        Some(items) => trusted_items(alloc, &place, items),
        None => Ok(Vec::new(alloc)),
    }
}
