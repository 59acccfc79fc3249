//! Laws of manifests: normal names, entries, and one outcome for each text.
ghost use Rattle.std.specs.Prelude.{◌≡◌, ℕ, List, [], All, Contains, Some, None, Result, Ok, true, map, take};
ghost use Rattle.toml.specs.Data.{Members, Items};
ghost use Rattle.manifest_model.specs.declared.fault.ManifestFault.{ManifestFault};
ghost use Rattle.manifest_model.specs.declared.entries.Trusted.{Trusted};
ghost use Rattle.manifest_model.specs.Trusting.{entries_of, items_of, items_refusal, named, sum_in, summed_by};
ghost use Rattle.manifest_model.specs.Listed.{Lists, Listed, lists_of, refusal, sgx, trusted_of};
ghost use Rattle.manifest_model.specs.Summed.{FitSums, IsSum, summed_items, with_sums, with_trusted};
ghost use Rattle.manifest_model.specs.Names.{normal, normal_parts, is_absolute, are_normal};

/// A normal name is its own normal name, and absolute where the name is. It has no empty part and no `.`, and `..` only
/// at the front of one that is not absolute.
pub fn name_is_normal()
    ensures itself { (name : List ℕ) → normal (normal name) ≡ normal name }
    ensures absolute { (name : List ℕ) → is_absolute (normal name) ≡ is_absolute name }
    ensures parts { (name : List ℕ) → are_normal (is_absolute name) (normal_parts name) ≡ true }
    ensures same_parts { (name : List ℕ) → normal_parts (normal name) ≡ normal_parts name }
{}

/// A table has one outcome: what it lists, or its first refusal.
pub fn table_has_its_outcome()
    ensures there { (ms : Members) → (outcome : Result Lists ManifestFault) × Listed ms outcome }
    ensures no_other { (ms : Members) (outcome other : Result Lists ManifestFault) → Listed ms outcome → Listed ms other → outcome ≡ other }
{}

/// Of each name the entries have one, where an item has it: the first item of the name, with the first sum among the
/// items of it. Where no item is refused, that is the sum of each item of the name that has one.
pub fn entries_are_one_a_name()
    ensures agreed { (place : List ℕ) (items : Items) (one : Trusted) (sum : List ℕ) → items_refusal [] place 0 items ≡ None → Contains (items_of items) one → one.sum ≡ Some sum → sum_in one.name (items_of items) ≡ Some sum }
    ensures entries { (items : List Trusted) (name : List ℕ) → named name (entries_of items) ≡ map (summed_by items) (take 1 (named name items)) }
{}

/// Of a table with sums nothing is refused. It lists what the table lists, and the entries with these sums.
pub fn tables_with_sums_list_the_same()
    ensures { (ms : Members) (sums : List (List ℕ)) → refusal ms ≡ None → FitSums (trusted_of (sgx ms)) sums → All IsSum sums → Listed (with_trusted (summed_items (trusted_of (sgx ms)) sums) ms) (Ok (record (lists_of ms) { trusted = with_sums (trusted_of (sgx ms)) sums })) }
{}
