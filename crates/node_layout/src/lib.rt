//! The layout of a protected file of version 1.0: the metadata node with its path, the places of the other nodes, and
//! the entries of the hash-tree nodes.
#![tactic(auto)]

mod bytes;
mod damage;
mod entries;
mod laws;
mod metadata;
mod opening;
mod path;
mod places;
mod sealing;

pub use damage::{Damage, Kind};
pub use entries::{entry, set_entry};
pub use laws::{listed_places, places_number_the_nodes, sealed_meta_opens, text_gives_its_fields};
pub use metadata::{MetaPlain, MetaSecret, PlainFault, SecretFault};
pub use opening::open_meta;
pub use path::PathText;
pub use places::{data_place, mht_parent, mht_place, node_count, parent_of, slot_of};
pub use sealing::seal_meta;
