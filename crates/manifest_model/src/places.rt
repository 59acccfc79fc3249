// Where a value stands in a table.
ghost use Rattle.std.specs.Prelude.{◌≡◌, ◌⊎◌, IfOk, string_bytes, Some};
ghost use Rattle.manifest_model.specs.Places.{place_text, bad_field, Stops};

use crate::fault::ManifestFault;
use pf_io::{Memory, Text};
use std::alloc::Global;

/// Where a value stands.
#[derive(Clone, Copy)]
pub(crate) enum Place<'a> {
    /// A path of keys, joined by `.`.
    Path(&'a str),
    /// A key of the table at a place.
    Key(&'a Place<'a>, &'a str),
    /// An item of the list at a place, counted from 0.
    Item(&'a Place<'a>, usize),
}

impl Place<'_> {
    // The path of keys joined by `.`, with `[K]` for the place in a list.
    fn text(&self, alloc: Global) -> Result<String, Memory>
        ensures { IfOk result (λ text. string_bytes text ≡ place_text self.now) }
    {
        match self {
            Place::Path(keys) => Ok(String::from_str(alloc, keys)?),
            Place::Key(outer, key) => {
                let mut text = outer.text(alloc)?;
                text.push_str(".")?;
                text.push_str(key)?;
                Ok(text)
            }
            Place::Item(outer, k) => {
                let mut text = outer.text(alloc)?;
                let number = k.to_string(alloc)?;
                text.push_str("[")?;
                text.push_str(number.as_str())?;
                text.push_str("]")?;
                Ok(text)
            }
        }
    }

    /// The refusal of the value at this place.
    pub(crate) fn bad_field(&self, alloc: Global) -> ManifestFault
        ensures { Stops (bad_field (place_text self.now)) result }
    {
        match self.text(alloc) {
            Ok(text) => ManifestFault::BadField {
                key: Text::from(text),
            },
            Err(Memory) => ManifestFault::Memory,
        }
    }
}
