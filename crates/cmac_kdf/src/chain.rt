// CMAC of SP 800-38B over AES-128.
ghost use Rattle.std.specs.Prelude.{◌≡◌, ◌≤◌, ◌<◌, ◌-◌, ◌∷◌, ◌++◌, fold, replicate, length};
ghost use Rattle.aes_gcm.specs.Cipher.{xor_bytes};
ghost use Rattle.cmac_kdf.specs.Cmac.{cmac, chained, finished, first_subkey, doubled_block};

use aes_gcm::{Key, encrypt_block};
use std::simd::u8x16;

/// The CMAC of a text of at most 65,536 bytes.
pub fn cmac(key: &Key, text: &[u8]) -> [u8; 16]
    requires { length text.now ≤ 65536 }
    ensures { result ≡ cmac key.now text.now }
{
    let before = text.len().saturating_sub(1) / 16;
    let blocks = text.as_chunks::<16>().0;
    let state = chain(key, &blocks[..before]);
    let last = finish(key, &text[16 * before..]);
    encrypt_block(key, &xor(&state, &last))
}

// The state after some whole blocks.
fn chain(key: &Key, blocks: &[[u8; 16]]) -> [u8; 16]
    ensures { result ≡ fold (chained key.now) (replicate 16 0) blocks.now }
{
    let mut state = [0; 16];
    for block in blocks {
        state = encrypt_block(key, &xor(&state, block));
    }
    state
}

// The last block, whole or filled up, with its subkey added.
fn finish(key: &Key, rest: &[u8]) -> [u8; 16]
    requires { length rest.now ≤ 16 }
    ensures { result ≡ finished key.now rest.now }
{
    let subkey = double(&encrypt_block(key, &[0; 16]));
    match rest.as_array::<16>() {
        Some(block) => xor(block, &subkey),
        None => xor(&filled(rest), &double(&subkey)),
    }
}

// The bytes, a 1 bit and zeros.
fn filled(rest: &[u8]) -> [u8; 16]
    requires { length rest.now < 16 }
    ensures { result ≡ rest.now ++ 0x80 ∷ replicate (15 - length rest.now) 0 }
{
    let mut block = [0; 16];
    block[..rest.len()].copy_from_slice(rest);
    block[rest.len()] = 0x80;
    block
}

// A block times x.
fn double(block: &[u8; 16]) -> [u8; 16]
    ensures { result ≡ doubled_block block.now }
{
    let number = u128::from_be_bytes(*block);
    let carried = if number < 1 << 127 { 0 } else { 0x87 };
    ((number << 1) ^ carried).to_be_bytes()
}

fn xor(a: &[u8; 16], b: &[u8; 16]) -> [u8; 16]
    ensures { result ≡ xor_bytes a.now b.now }
{
    (u8x16::from_array(*a) ^ u8x16::from_array(*b)).to_array()
}
