//! The entries of a hash-tree node.
ghost use Rattle.std.specs.Prelude.{◌≡◌, ◌≢◌, ℕ, ◌<◌};
ghost use Rattle.node_layout.specs.Entries.{entry_at, with_entry};

use crate::bytes::{array_at, put_array};

/// The key and the tag at a place.
pub fn entry(node: &[u8; 4096], place: usize) -> ([u8; 16], [u8; 16])
    requires { place < 128 }
    ensures { result ≡ entry_at node.now place }
{
    (array_at(node, 32 * place), array_at(node, 32 * place + 16))
}

/// Puts a key and a tag at a place. All other entries stay.
pub fn set_entry(node: &mut [u8; 4096], place: usize, key: &[u8; 16], tag: &[u8; 16])
    requires { place < 128 }
    ensures whole { node.new ≡ with_entry node.old place key.now tag.now }
    ensures here { entry_at node.new place ≡ (key.now, tag.now) }
    ensures others { (other : ℕ) → other < 128 → other ≢ place → entry_at node.new other ≡ entry_at node.old other }
{
    put_array(node, 32 * place, key);
    put_array(node, 32 * place + 16, tag);
}
