//! The manifest profile: trusted and allowed files, mounts, keys and the policy of a TOML table.
#![tactic(auto)]

mod entries;
pub mod examples;
mod fault;
mod fields;
mod laws;
mod listing;
mod manifest;
mod mounting;
mod names;
mod places;
mod summing;
mod trusting;
mod walk;

pub use entries::{Mount, MountKind, Policy, Trusted};
pub use fault::ManifestFault;
pub use laws::{
    entries_are_one_a_name, name_is_normal, table_has_its_outcome, tables_with_sums_list_the_same,
};
pub use manifest::Manifest;
pub use names::normal_name;
