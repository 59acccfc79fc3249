// The encrypted part of the metadata node, opened.
ghost use Rattle.std.specs.Prelude.{◌≡◌, IfOk, IfErr};
ghost use Rattle.node_layout.specs.Metadata.{IsPlain};
ghost use Rattle.node_layout.specs.Opening.{OpensTo, IsOpenFault};

use crate::bytes::array_at;
use crate::damage::Kind;
use crate::metadata::MetaSecret;
use aes_gcm::{Key, open_in_place};
use cmac_kdf::metadata_key;

/// Opens a metadata node of version 1.0 under the user's key.
///
/// The answer is `Kind::Tag` where the encrypted part does not open, and else `Kind::Text` where
/// what it opens to is refused by `MetaSecret::read`.
pub fn open_meta(user: &[u8; 16], node: &[u8; 4096]) -> Result<MetaSecret, Kind>
    requires { IsPlain node.now }
    ensures opened { IfOk result (OpensTo user.now node.now) }
    ensures refused { IfErr result (IsOpenFault user.now node.now) }
{
    let nonce = array_at(node, 10);
    let derived = metadata_key(user, &nonce);
    let key = Key::new(&derived);
    let tag = array_at(node, 42);
    let mut part: [u8; 3880] = array_at(node, 59);
    if !open_in_place(&key, &[], &mut part, &tag) {
        return Err(Kind::Tag);
    }
    match MetaSecret::read(&part) {
        Ok(secret) => Ok(secret),
        Err(_) => Err(Kind::Text),
    }
}
