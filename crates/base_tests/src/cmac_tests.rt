// The published examples of SP 800-38B, D.1, and a key that Python's cryptography computed.
use aes_gcm::Key;
use cmac_kdf::{cmac, metadata_key};

const KEY: [u8; 16] = [
    0x2b, 0x7e, 0x15, 0x16, 0x28, 0xae, 0xd2, 0xa6, 0xab, 0xf7, 0x15, 0x88, 0x09, 0xcf, 0x4f, 0x3c,
];

const TEXT: [u8; 64] = [
    0x6b, 0xc1, 0xbe, 0xe2, 0x2e, 0x40, 0x9f, 0x96, 0xe9, 0x3d, 0x7e, 0x11, 0x73, 0x93, 0x17, 0x2a,
    0xae, 0x2d, 0x8a, 0x57, 0x1e, 0x03, 0xac, 0x9c, 0x9e, 0xb7, 0x6f, 0xac, 0x45, 0xaf, 0x8e, 0x51,
    0x30, 0xc8, 0x1c, 0x46, 0xa3, 0x5c, 0xe4, 0x11, 0xe5, 0xfb, 0xc1, 0x19, 0x1a, 0x0a, 0x52, 0xef,
    0xf6, 0x9f, 0x24, 0x45, 0xdf, 0x4f, 0x9b, 0x17, 0xad, 0x2b, 0x41, 0x7b, 0xe6, 0x6c, 0x37, 0x10,
];

#[test]
fn cmac_gives_the_published_tags(rt: HostRuntime) {
    let key = Key::new(&KEY);
    let empty = u128::from_be_bytes(cmac(&key, &[]));
    assert!(rt; empty == 0xbb1d_6929_e959_3728_7fa3_7d12_9b75_6746);
    let one_block = u128::from_be_bytes(cmac(&key, &TEXT[..16]));
    assert!(rt; one_block == 0x070a_16b4_6b4d_4144_f79b_dd9d_d04a_287c);
    let part_block = u128::from_be_bytes(cmac(&key, &TEXT[..40]));
    assert!(rt; part_block == 0xdfa6_6747_de9a_e630_30ca_3261_1497_c827);
    let four_blocks = u128::from_be_bytes(cmac(&key, &TEXT));
    assert!(rt; four_blocks == 0x51f0_bebf_7e3b_9d92_fc49_7417_7936_3cfe);
}

// The user's key is the bytes 0 to 15, and the nonce the bytes 128 to 159.
#[test]
fn metadata_key_gives_the_key_of_another_implementation(rt: HostRuntime) {
    let user = 0x0001_0203_0405_0607_0809_0a0b_0c0d_0e0f_u128.to_be_bytes();
    let mut nonce = [0; 32];
    for i in 0..32 {
        nonce[i] = 128 + i as u8;
    }
    let key = u128::from_be_bytes(metadata_key(&user, &nonce));
    assert!(rt; key == 0x947a_b33a_0679_51a4_6151_a234_4345_64f5);
}
