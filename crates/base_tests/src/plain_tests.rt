//! AES-128-GCM step by step, with no tables but the S-box, and aes_gcm on the same random texts.
ghost use Rattle.std.specs.Prelude.{◌≤◌, length};

use aes_gcm::{Key, open_in_place, seal_in_place};
use std::process::Abort;

// The product of two bytes (FIPS 197, 4.2).
fn byte_product(a: u8, b: u8) -> u8 {
    let mut multiple = a;
    let mut product = 0;
    for bit in 0..8u32 {
        if b >> bit & 1 == 1 {
            product ^= multiple;
        }
        let carry = if multiple < 128 { 0 } else { 0x1b };
        multiple = multiple << 1 ^ carry;
    }
    product
}

// The S-box (FIPS 197, 5.1.1), where each inverse is found by trying all bytes.
fn s_box() -> [u8; 256] {
    let mut table = [0x63; 256];
    for a in 1..256usize {
        for b in 1..256usize {
            if byte_product(a as u8, b as u8) == 1 {
                let b = b as u8;
                table[a] = b
                    ^ b.rotate_left(1)
                    ^ b.rotate_left(2)
                    ^ b.rotate_left(3)
                    ^ b.rotate_left(4)
                    ^ 0x63;
            }
        }
    }
    table
}

// KeyExpansion (FIPS 197, 5.2), byte by byte.
fn schedule(s_box: &[u8; 256], key: &[u8; 16]) -> [u8; 176] {
    let mut bytes = [0; 176];
    for i in 0..16usize {
        bytes[i] = key[i];
    }
    let mut constant = 1;
    for i in 16..176usize {
        let mut byte = bytes[i - 4];
        if i % 16 < 4 {
            let turned = if i % 4 == 3 { i - 7 } else { i - 3 };
            byte = s_box[bytes[turned] as usize];
        }
        if i % 16 == 0 {
            byte ^= constant;
            constant = byte_product(constant, 2);
        }
        bytes[i] = bytes[i - 16] ^ byte;
    }
    bytes
}

// SubBytes and ShiftRows (FIPS 197, 5.1.1 and 5.1.2).
fn substituted_and_shifted(s_box: &[u8; 256], state: &[u8; 16]) -> [u8; 16] {
    let mut shifted = [0; 16];
    for i in 0..16usize {
        shifted[i] = s_box[state[(i + 4 * (i % 4)) % 16] as usize];
    }
    shifted
}

// MixColumns (FIPS 197, 5.1.3).
fn mixed(state: &[u8; 16]) -> [u8; 16] {
    let mut mixed = [0; 16];
    for i in 0..16usize {
        let column = i / 4 * 4;
        mixed[i] = byte_product(state[i], 2)
            ^ byte_product(state[column + (i + 1) % 4], 3)
            ^ state[column + (i + 2) % 4]
            ^ state[column + (i + 3) % 4];
    }
    mixed
}

// Cipher (FIPS 197, 5.1).
fn cipher(s_box: &[u8; 256], round_keys: &[u8; 176], block: u128) -> u128 {
    let mut state = block.to_be_bytes();
    for i in 0..16usize {
        state[i] ^= round_keys[i];
    }
    for round in 1..11usize {
        let shifted = substituted_and_shifted(s_box, &state);
        state = if round < 10 { mixed(&shifted) } else { shifted };
        for i in 0..16usize {
            state[i] ^= round_keys[16 * round + i];
        }
    }
    u128::from_be_bytes(state)
}

// The product of two blocks in 128 steps (SP 800-38D, 6.3).
fn block_product(x: u128, y: u128) -> u128 {
    let mut sum = 0;
    let mut multiple = y;
    for bit in 0..128u32 {
        if x >> (127 - bit) & 1 == 1 {
            sum ^= multiple;
        }
        let carry = if multiple & 1 == 1 { 0xe1 << 120 } else { 0 };
        multiple = multiple >> 1 ^ carry;
    }
    sum
}

// GHASH (SP 800-38D, 6.4) from a hash on over a text that zeros pad.
fn hashed(h: u128, hash: u128, text: &[u8]) -> u128 {
    let mut hash = hash;
    let mut block: u128 = 0;
    for i in 0..text.len() {
        block ^= (text[i] as u128) << (120 - 8 * (i % 16));
        if i % 16 == 15 || i + 1 == text.len() {
            hash = block_product(hash ^ block, h);
            block = 0;
        }
    }
    hash
}

// GCM-AE (SP 800-38D, 7.1).
fn seal(s_box: &[u8; 256], key: &[u8; 16], aad: &[u8], text: &mut [u8]) -> u128
    requires aad { length aad.now ≤ 65536 }
    requires text { length text.old ≤ 65536 }
{
    let round_keys = schedule(s_box, key);
    let mut pad = [0; 16];
    for i in 0..text.len() {
        if i % 16 == 0 {
            pad = cipher(s_box, &round_keys, 2 + (i / 16) as u128).to_be_bytes();
        }
        text[i] ^= pad[i % 16];
    }
    let h = cipher(s_box, &round_keys, 0);
    let hash = hashed(h, hashed(h, 0, aad), text);
    let lengths = ((8 * aad.len()) as u128) << 64 | (8 * text.len()) as u128;
    block_product(hash ^ lengths, h) ^ cipher(s_box, &round_keys, 1)
}

// Random bytes, the same at each call with this seed.
fn fill_random(bytes: &mut [u8], seed: u32) {
    let mut state = seed;
    for byte in bytes {
        state = state.wrapping_mul(1_664_525).wrapping_add(1);
        *byte = (state >> 24) as u8;
    }
}

// Seals random bytes both ways, and opens them again.
fn expect_alike(
    rt: &impl Abort,
    s_box: &[u8; 256],
    aad: &[u8],
    text: &mut [u8],
    other: &mut [u8],
    seed: u32,
)
    requires aad { length aad.now ≤ 65536 }
    requires text { length text.old ≤ 65536 }
    requires other { length other.old ≤ 65536 }
{
    let mut key = [0; 16];
    fill_random(&mut key, seed ^ 1);
    fill_random(text, seed);
    fill_random(other, seed);
    let wanted = seal(s_box, &key, aad, other);
    let key = Key::new(&key);
    let tag = seal_in_place(&key, aad, text);
    assert!(rt; u128::from_be_bytes(tag) == wanted && *text == *other);
    fill_random(other, seed);
    assert!(rt; open_in_place(&key, aad, text, &tag) && *text == *other);
}

// Every length up to three groups of blocks, and some up to the longest, with and without an AAD.
#[test]
fn texts_of_all_lengths_seal_as_step_by_step(rt: HostRuntime) {
    let s_box = s_box();
    let mut aad = [0; 1024];
    let mut text = [0; 65536];
    let mut other = [0; 65536];
    fill_random(&mut aad, 7);
    for len in 0..193usize {
        let seed = len as u32;
        expect_alike(&rt, &s_box, &[], &mut text[..len], &mut other[..len], seed);
        expect_alike(
            &rt,
            &s_box,
            &aad[..len],
            &mut text[..len],
            &mut other[..len],
            seed,
        );
    }
    for aad_len in [0, 13, 1000, 1024] {
        for len in [1001, 4096, 30_011, 65_533, 65_536] {
            expect_alike(
                &rt,
                &s_box,
                &aad[..aad_len],
                &mut text[..len],
                &mut other[..len],
                len as u32,
            );
        }
    }
}
