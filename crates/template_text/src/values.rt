// The values of names, for many look-ups.
ghost use Rattle.std.specs.Prelude.{◌≡◌, ℕ, List, Some, IfOk, OnOk, bytes_eq, option_map, cond};
ghost use Rattle.template_text.specs.Rendering.{value_of};
ghost use Rattle.template_text.specs.Indexes.{value_in};

use pf_io::{Memory, Text};
use std::alloc::Global;
use std::collections::BTreeMap;

/// The last value of each name.
pub(crate) type Index<'a> = BTreeMap<&'a str, &'a str>;

// Gives a name a value, whatever it had.
fn set<'a>(index: &mut Index<'a>, name: &'a str, value: &'a str) -> Result<(), Memory>
    ensures { OnOk result ((other : List ℕ) → value_in index.new other ≡ cond (bytes_eq other name.now) (Some value.now) (value_in index.old other)) }
{
    index.insert(name, value)?;
    Ok(())
}

/// The index of some pairs of a name and its value.
pub(crate) fn index_of(alloc: Global, values: &[(Text, Text)]) -> Result<Index<'_>, Memory>
    ensures { IfOk result (λ index. (name : List ℕ) → value_in index name ≡ value_of values.now name) }
{
    let mut index = Index::new(alloc);
    for (name, value) in values {
        set(&mut index, name.as_str(), value.as_str())?;
    }
    Ok(index)
}

/// The value of a name.
pub(crate) fn value_at<'a>(index: &Index<'a>, name: &str) -> Option<&'a str>
    ensures { option_map (λ value. value.now) result ≡ value_in index.now name.now }
{
    index.get(name).copied()
}
