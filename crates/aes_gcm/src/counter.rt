//! The key stream of AES-128-GCM.
ghost use Rattle.std.specs.Prelude.{◌≡◌, ◌+◌, ◌≤◌, ◌<◌, length, map, bit_xor};
ghost use Rattle.std.specs.List.{range_with_len};
ghost use Rattle.std.specs.Simd.Lanes.{chunk, put_chunk, zip2};
ghost use Rattle.aes_gcm.specs.Cipher.{cipher};
ghost use Rattle.aes_gcm.specs.Gcm.{counter_block, crypted};

use crate::block::{Key, encrypt_block, encrypt_four};
use std::simd::prelude::*;

// The IV of twelve zero bytes and a counter (SP 800-38D, 7.1).
#[inline(always)]
fn counter_block(counter: u32) -> u8x16
    ensures { result ≡ counter_block counter }
{
    let bytes = counter.to_be_bytes();
    u8x16::from_array([
        0, 0, 0, 0, 0, 0, 0, 0, 0, 0, 0, 0, bytes[0], bytes[1], bytes[2], bytes[3],
    ])
}

/// The ciphers of four counters from this one on. Counter 0 gives the hash key, and 1 the tag's mask.
#[inline(always)]
pub(crate) fn four_pads(key: &Key, counter: u32) -> [u8x16; 4]
    requires { counter < 65536 }
    ensures { result ≡ map (cipher key.now) (map counter_block (range_with_len counter 4)) }
{
    encrypt_four(
        key,
        [
            counter_block(counter),
            counter_block(counter + 1),
            counter_block(counter + 2),
            counter_block(counter + 3),
        ],
    )
}

// Adds a pad to the 16 bytes of a text from `at` on.
#[inline(always)]
fn add_pad(text: &mut [u8], at: usize, pad: u8x16)
    requires { at + 16 ≤ length text.old }
    ensures { text.new ≡ put_chunk at text.old (zip2 bit_xor (chunk at 16 text.old) pad) }
{
    let sum = u8x16::from_slice(&text[at..]) ^ pad;
    sum.copy_to_slice(&mut text[at..]);
}

/// Adds the key stream to a text, from counter 2 on (GCTR of SP 800-38D, 6.5).
pub(crate) fn add_key_stream(key: &Key, text: &mut [u8])
    requires { length text.old ≤ 65536 }
    ensures { text.new ≡ crypted key.now text.old }
{
    let groups = text.len() / 64;
    for group in 0..groups {
        let at = 64 * group;
        let [first, second, third, fourth] = four_pads(key, 2 + 4 * group as u32);
        add_pad(text, at, first);
        add_pad(text, at + 16, second);
        add_pad(text, at + 32, third);
        add_pad(text, at + 48, fourth);
    }
    let mut pad = [0; 16];
    for j in 64 * groups..text.len() {
        if j % 16 == 0 {
            pad = encrypt_block(key, &counter_block(2 + (j / 16) as u32).to_array());
        }
        text[j] ^= pad[j % 16];
    }
}
