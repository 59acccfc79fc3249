//! Blocks that others published.
use aes_gcm::{Key, encrypt_block};

// The bytes of a number written in hexadecimal as a block is.
fn block(number: u128) -> [u8; 16] {
    number.to_be_bytes()
}

// A key, a block and what it is encrypted to: the examples of FIPS 197, then one of each of NIST's known answers (GFSbox,
// KeySbox, VarKey, VarTxt).
const EXAMPLES: [(u128, u128, u128); 6] = [
    (
        0x000102030405060708090a0b0c0d0e0f,
        0x00112233445566778899aabbccddeeff,
        0x69c4e0d86a7b0430d8cdb78070b4c55a,
    ),
    (
        0x2b7e151628aed2a6abf7158809cf4f3c,
        0x3243f6a8885a308d313198a2e0370734,
        0x3925841d02dc09fbdc118597196a0b32,
    ),
    (
        0x00000000000000000000000000000000,
        0xf34481ec3cc627bacd5dc3fb08f273e6,
        0x0336763e966d92595a567cc9ce537f5e,
    ),
    (
        0x10a58869d74be5a374cf867cfb473859,
        0x00000000000000000000000000000000,
        0x6d251e6944b051e04eaa6fb4dbf78465,
    ),
    (
        0xffffffffffffffffffffffffffffffff,
        0x00000000000000000000000000000000,
        0xa1f6258c877d5fcd8964484538bfc92c,
    ),
    (
        0x00000000000000000000000000000000,
        0xffffffffffffffffffffffffffffffff,
        0x3f5b8cc9ea855a0afa7347d23e8d664e,
    ),
];

#[test]
fn published_blocks_are_encrypted(rt: HostRuntime) {
    for (key, text, want) in &EXAMPLES {
        let key = Key::new(&block(*key));
        assert!(rt; encrypt_block(&key, &block(*text)) == block(*want));
    }
}
