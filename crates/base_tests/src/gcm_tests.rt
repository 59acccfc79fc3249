//! Texts that others sealed, and tags that are wrong.
ghost use Rattle.std.specs.Prelude.{◌≤◌};

use aes_gcm::{Key, open_in_place, seal_in_place};
use std::process::Abort;

// The GCM specification's test cases 1 and 2.
#[test]
fn zero_key_seals_as_published(rt: HostRuntime) {
    let key = Key::new(&[0; 16]);
    let mut none: [u8; 0] = [];
    assert!(rt;
        seal_in_place(&key, &[], &mut none)
            == [
                0x58, 0xe2, 0xfc, 0xce, 0xfa, 0x7e, 0x30, 0x61, 0x36, 0x7f, 0x1d, 0x57, 0xa4, 0xe7,
                0x45, 0x5a,
            ]
    );
    let mut block = [0; 16];
    let tag = seal_in_place(&key, &[], &mut block);
    assert!(rt;
        block
            == [
                0x03, 0x88, 0xda, 0xce, 0x60, 0xb6, 0xa3, 0x92, 0xf3, 0x28, 0xc2, 0xb9, 0x71, 0xb2,
                0xfe, 0x78,
            ]
    );
    assert!(rt;
        tag == [
            0xab, 0x6e, 0x47, 0xd4, 0x2c, 0xec, 0x13, 0xbd, 0xf5, 0x3a, 0x67, 0xb2, 0x12, 0x57,
            0xbd, 0xdf,
        ]
    );
}

// The bytes 0 to 63 under the key of the bytes 0 to 15, as OpenSSL encrypts them.
const CIPHERTEXT: [u8; 64] = [
    0x49, 0xd7, 0x85, 0x50, 0x9d, 0x9e, 0xa0, 0x8b, 0xeb, 0x80, 0x70, 0x63, 0x6c, 0x8c, 0xbe, 0x92,
    0xa9, 0xbc, 0x39, 0x3d, 0x20, 0x7f, 0xd4, 0x2f, 0x48, 0x44, 0x2c, 0x45, 0x80, 0xaa, 0xe2, 0x49,
    0x10, 0x42, 0x94, 0xfc, 0x2e, 0x09, 0xfd, 0x97, 0xad, 0x3b, 0x7b, 0xf9, 0xea, 0x44, 0xff, 0x90,
    0xab, 0xb3, 0xab, 0xba, 0x50, 0x47, 0xb7, 0x76, 0x78, 0x67, 0x19, 0xe6, 0xa3, 0x20, 0xee, 0x24,
];

fn counted_key() -> Key {
    let mut bytes = [0; 16];
    for i in 0..16 {
        bytes[i] = i as u8;
    }
    Key::new(&bytes)
}

fn counted_text() -> [u8; 64] {
    let mut text = [0; 64];
    for i in 0..64 {
        text[i] = i as u8;
    }
    text
}

fn counted_aad() -> [u8; 20] {
    let mut aad = [0; 20];
    for i in 0..20 {
        aad[i] = 200 + i as u8;
    }
    aad
}

// Seals the first bytes of the AAD and of the text, and opens them again.
fn expect_tag(rt: &impl Abort, aad_len: usize, text_len: usize, wanted: u128)
    requires aad { aad_len ≤ 20 }
    requires text { text_len ≤ 64 }
{
    let key = counted_key();
    let aad = &counted_aad()[..aad_len];
    let mut text = counted_text();
    let tag = seal_in_place(&key, aad, &mut text[..text_len]);
    assert!(rt; u128::from_be_bytes(tag) == wanted);
    assert!(rt; text[..text_len] == CIPHERTEXT[..text_len]);
    assert!(rt; open_in_place(&key, aad, &mut text[..text_len], &tag));
    assert!(rt; text == counted_text());
}

// Tags of OpenSSL, for lengths around whole blocks.
#[test]
fn rests_and_aads_seal_as_in_openssl(rt: HostRuntime) {
    expect_tag(&rt, 0, 1, 0xc5cd_8e22_6fc0_019f_a7b9_5595_f009_6d13);
    expect_tag(&rt, 0, 15, 0xdcf6_4718_960f_58d5_833a_3b0e_8ca2_16b3);
    expect_tag(&rt, 0, 16, 0xdae3_f635_92bf_83db_56e5_287a_e802_f38e);
    expect_tag(&rt, 0, 17, 0x638f_730c_a284_86ea_eb30_266d_42da_3a1b);
    expect_tag(&rt, 0, 47, 0x7958_2131_e7a5_257b_7137_e2e2_a4c0_3852);
    expect_tag(&rt, 0, 64, 0x218d_66c5_aa1c_151f_3bae_e1e1_dd2f_6135);
    expect_tag(&rt, 20, 1, 0x59af_9103_520f_bb6b_8fe2_9b39_2c89_fd23);
    expect_tag(&rt, 20, 15, 0x4094_5839_abc0_e221_ab61_f5a2_5022_8683);
    expect_tag(&rt, 20, 16, 0x4681_e914_af70_392f_7ebe_e6d6_3482_63be);
    expect_tag(&rt, 20, 17, 0x3c88_330b_35c4_babe_06ff_f749_370c_44bd);
    expect_tag(&rt, 20, 47, 0x2821_6fd8_5204_57e6_c51d_ec59_b1bb_170f);
    expect_tag(&rt, 20, 64, 0x92bc_8940_6df7_4d79_37c7_a9e6_7d63_5318);
}

#[test]
fn wrong_tags_open_nothing(rt: HostRuntime) {
    let key = counted_key();
    let aad = counted_aad();
    let mut text = counted_text();
    let tag = seal_in_place(&key, &aad, &mut text);
    for place in 0..16 {
        let mut wrong = tag;
        wrong[place] ^= 1;
        assert!(rt; !open_in_place(&key, &aad, &mut text, &wrong));
        assert!(rt; text == CIPHERTEXT);
    }
}
