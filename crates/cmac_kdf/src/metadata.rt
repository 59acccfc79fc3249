// The key under which a protected file's metadata is sealed.
ghost use Rattle.std.specs.Prelude.{◌≡◌};
ghost use Rattle.cmac_kdf.specs.MetadataKey.{metadata_key, metadata_input};

use crate::chain::cmac;
use aes_gcm::Key;

const LABEL: &[u8; 29] = b"SGX-PROTECTED-FS-METADATA-KEY";

/// The key of a file's metadata, from the user's key and the file's nonce.
pub fn metadata_key(user: &[u8; 16], nonce: &[u8; 32]) -> [u8; 16]
    ensures { result ≡ metadata_key user.now nonce.now }
{
    cmac(&Key::new(user), &metadata_input(nonce))
}

// What is authenticated under the user's key.
fn metadata_input(nonce: &[u8; 32]) -> [u8; 104]
    ensures { result ≡ metadata_input nonce.now }
{
    let mut input = [0; 104];
    input[..4].copy_from_slice(&1u32.to_le_bytes());
    input[4..33].copy_from_slice(LABEL);
    input[100..].copy_from_slice(&128u32.to_le_bytes());
    input[68..100].copy_from_slice(nonce);
    input
}
