//! Sealing and opening in place: AES-128-GCM of SP 800-38D with an IV of twelve zero bytes.
ghost use Rattle.std.specs.Prelude.{◌≡◌, ◌↔◌, ◌≤◌, ℕ, length, List, IsFalse, IsSome, IsTrue, Some};
ghost use Rattle.aes_gcm.specs.Gcm.{tag_of, seal, opens};

use crate::block::Key;
use crate::counter::{add_key_stream, four_pads};
use crate::ghash::hash;
use std::simd::prelude::*;

fn tag_of(key: &Key, aad: &[u8], text: &[u8]) -> [u8; 16]
    requires aad { length aad.now ≤ 65536 }
    requires text { length text.now ≤ 65536 }
    ensures { result ≡ tag_of key.now aad.now text.now }
{
    let [hash_key, mask, _, _] = four_pads(key, 0);
    let hash = hash(u128::from_be_bytes(hash_key.to_array()), aad, text);
    (u8x16::from_array(hash.to_be_bytes()) ^ mask).to_array()
}

// Looks at all 16 bytes, wherever the first difference is.
fn same_tag(tag: &[u8; 16], other: &[u8; 16]) -> bool
    ensures { IsTrue result ↔ tag.now ≡ other.now }
{
    let mut difference = 0;
    for k in 0..16usize {
        difference |= tag[k] ^ other[k];
    }
    difference == 0
}

/// Encrypts a text in place, and answers the tag of it and of the AAD (GCM-AE, 7.1).
///
/// A key is to seal only once, since the IV is always zero.
pub fn seal_in_place(key: &Key, aad: &[u8], text: &mut [u8]) -> [u8; 16]
    requires aad { length aad.now ≤ 65536 }
    requires text { length text.old ≤ 65536 }
    ensures ciphertext { text.new ≡ (seal key.now aad.now text.old).0 }
    ensures tag { result ≡ (seal key.now aad.now text.old).1 }
{
    add_key_stream(key, text);
    tag_of(key, aad, text)
}

/// Decrypts a text in place where the tag is that of it and of the AAD (GCM-AD, 7.2).
///
/// Answers false where it is not, and then leaves the text as it was.
pub fn open_in_place(key: &Key, aad: &[u8], text: &mut [u8], tag: &[u8; 16]) -> bool
    requires aad { length aad.now ≤ 65536 }
    requires text { length text.old ≤ 65536 }
    ensures opened { IsTrue result ↔ IsSome (opens key.now aad.now text.old tag.now) }
    ensures plain { IsTrue result → opens key.now aad.now text.old tag.now ≡ Some text.new }
    ensures unchanged { IsFalse result → text.new ≡ text.old }
{
    let expected = tag_of(key, aad, text);
    if !same_tag(tag, &expected) {
        return false;
    }
    add_key_stream(key, text);
    true
}

/// What was sealed opens again, to the text that was sealed. A seal keeps the text's length.
pub fn sealed_opens()
    ensures opens { (key aad text : List ℕ) → opens key aad (seal key aad text).0 (seal key aad text).1 ≡ Some text }
    ensures length { (key aad text : List ℕ) → length (seal key aad text).0 ≡ length text }
{}
