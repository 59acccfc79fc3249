// A metadata node, sealed.
ghost use Rattle.std.specs.Prelude.{◌≡◌, ◌≤◌, ◌∷◌, ◌++◌, [], replicate};
ghost use Rattle.node_layout.specs.Metadata.{magic, meta_text, meta_block, IsPlain, MOST_SIZE};
ghost use Rattle.node_layout.specs.Opening.{OpensTo};

use crate::bytes::put_array;
use crate::metadata::{MAGIC, MetaSecret};
use aes_gcm::{Key, seal_in_place};
use cmac_kdf::metadata_key;

/// Seals a metadata node of version 1.0 under the user's key and the nonce, with update flag 0.
///
/// All 4096 bytes of the node are written. `open_meta` gives the same fields again under this key,
/// where the size is at most 2^32. A nonce is to seal only once under a user's key.
pub fn seal_meta(user: &[u8; 16], nonce: &[u8; 32], secret: &MetaSecret, node: &mut [u8; 4096])
    ensures sealed { node.new ≡ meta_block user.now nonce.now (meta_text secret.now.path secret.now.size secret.now.root_key secret.now.root_tag secret.now.first) }
    ensures plain { IsPlain node.new }
    ensures opens_again { secret.now.size ≤ MOST_SIZE → OpensTo user.now node.new secret.now }
{
    let mut part = [0; 3880];
    secret.write(&mut part);
    let derived = metadata_key(user, nonce);
    let key = Key::new(&derived);
    let tag = seal_in_place(&key, &[], &mut part);
    put_node(nonce, &tag, &part, node);
}

// Writes the node of a sealed part, with update flag 0.
fn put_node(nonce: &[u8; 32], tag: &[u8; 16], part: &[u8; 3880], node: &mut [u8; 4096])
    ensures { node.new ≡ magic ++ (1 ∷ 0 ∷ []) ++ nonce.now ++ tag.now ++ (0 ∷ []) ++ part.now ++ replicate 157 0 }
{
    put_array(node, 0, &MAGIC);
    put_array(node, 8, &[1, 0]);
    put_array(node, 10, nonce);
    put_array(node, 42, tag);
    put_array(node, 58, &[0]);
    put_array(node, 59, part);
    put_array(node, 3939, &[0; 157]);
}
