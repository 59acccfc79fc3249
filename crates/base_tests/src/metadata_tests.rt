// What a path, a metadata node and its encrypted part are, at their limits.
ghost use Rattle.std.specs.Prelude.{◌≤◌, length};

use aes_gcm::{Key, seal_in_place};
use cmac_kdf::metadata_key;
use node_layout::{
    Kind, MetaPlain, MetaSecret, PathText, PlainFault, SecretFault, open_meta, seal_meta,
};
use std::process::Abort;
use std::str;

const USER: [u8; 16] = [7; 16];

const NONCE: [u8; 32] = [9; 32];

fn is_path(bytes: &[u8]) -> bool {
    match str::from_utf8(bytes) {
        Ok(text) => PathText::new(text).is_some(),
        Err(_) => false,
    }
}

#[test]
fn a_path_has_1_to_767_bytes_and_no_zero(rt: HostRuntime) {
    assert!(rt; !is_path(b""));
    assert!(rt; is_path(b"a"));
    assert!(rt; !is_path(b"a\0b"));
    let mut long = [b'a'; 768];
    assert!(rt; is_path(&long[..767]));
    assert!(rt; !is_path(&long));
    long[765..767].copy_from_slice("é".as_bytes());
    assert!(rt; is_path(&long[..767]));
}

#[test]
fn a_path_keeps_its_text(rt: HostRuntime) {
    let Some(path) = PathText::new("dir/é") else {
        panic!(rt; "no path");
    };
    assert!(rt; path.as_str() == "dir/é");
    assert!(rt; path.bytes() == "dir/é".as_bytes());
}

// A node whose encrypted part is that part, not sealed.
fn node_of(tag: &[u8; 16], part: &[u8; 3880]) -> [u8; 4096] {
    let mut node = [0; 4096];
    node[..8].copy_from_slice(b"GRPFTOOL");
    node[8] = 1;
    node[10..42].copy_from_slice(&NONCE);
    node[42..58].copy_from_slice(tag);
    node[58] = 3;
    node[59..3939].copy_from_slice(part);
    node
}

#[test]
fn the_open_fields_are_read(rt: HostRuntime) {
    let wanted = MetaPlain {
        nonce: NONCE,
        tag: [5; 16],
        flag: 3,
    };
    assert!(rt; MetaPlain::read(&node_of(&[5; 16], &[0; 3880])) == Ok(wanted));
}

#[test]
fn each_byte_of_magic_and_version_counts(rt: HostRuntime) {
    for at in 0..8 {
        let mut node = node_of(&[5; 16], &[0; 3880]);
        node[at] ^= 1;
        assert!(rt; MetaPlain::read(&node) == Err(PlainFault::NotProtected));
    }
    for (at, major, minor) in [(8usize, 2, 0), (9, 1, 2)] {
        let mut node = node_of(&[5; 16], &[0; 3880]);
        node[8] = major;
        node[9] = minor;
        let fault = PlainFault::BadVersion { major, minor };
        assert!(rt; MetaPlain::read(&node) == Err(fault));
    }
}

// The text of an encrypted part, of a path field and a size.
fn part_of(path: &[u8], size: u64) -> [u8; 3880]
    requires { length path.now ≤ 768 }
{
    let mut part = [0; 3880];
    part[768..776].copy_from_slice(&size.to_le_bytes());
    part[776..792].copy_from_slice(&[1; 16]);
    part[792..808].copy_from_slice(&[2; 16]);
    part[808..813].copy_from_slice(b"hello");
    part[..path.len()].copy_from_slice(path);
    part
}

fn fault_of(path: &[u8], size: u64) -> Option<SecretFault>
    requires { length path.now ≤ 768 }
{
    match MetaSecret::read(&part_of(path, size)) {
        Ok(_) => None,
        Err(fault) => Some(fault),
    }
}

#[test]
fn a_text_needs_a_padded_path_and_a_size_within_the_limit(rt: HostRuntime) {
    assert!(rt; fault_of(b"dir/note", 1 << 32) == None);
    let size = (1 << 32) + 1;
    assert!(rt; fault_of(b"dir/note", size) == Some(SecretFault::BadSize { size }));
    for path in [&b""[..], b"a\0b", b"\xc3", &[b'a'; 768]] {
        assert!(rt; fault_of(path, size) == Some(SecretFault::BadPathText));
    }
}

// A node whose encrypted part is sealed under the key of USER and NONCE.
fn sealed_node(text: &[u8; 3880]) -> [u8; 4096] {
    let key = Key::new(&metadata_key(&USER, &NONCE));
    let mut part = *text;
    let tag = seal_in_place(&key, &[], &mut part);
    node_of(&tag, &part)
}

// Why a node does not open.
fn damage_of(rt: &impl Abort, user: &[u8; 16], node: &[u8; 4096]) -> Option<Kind> {
    assert!(rt; MetaPlain::read(node).is_ok());
    match open_meta(user, node) {
        Ok(_) => None,
        Err(kind) => Some(kind),
    }
}

// The tag is what Python's cryptography computed.
#[test]
fn a_sealed_node_opens_to_its_fields(rt: HostRuntime) {
    let node = sealed_node(&part_of(b"dir/note", 5));
    let Ok(plain) = MetaPlain::read(&node) else {
        panic!(rt; "no metadata node");
    };
    assert!(rt; u128::from_be_bytes(plain.tag) == 0x26aa_c67f_6990_85be_66be_9aa7_6908_01ed);
    let Ok(secret) = open_meta(&USER, &node) else {
        panic!(rt; "the node does not open");
    };
    assert!(rt; secret.path.as_str() == "dir/note");
    assert!(rt; secret.size == 5);
    assert!(rt; secret.root_key == [1; 16]);
    assert!(rt; secret.root_tag == [2; 16]);
    assert!(rt; secret.first.starts_with(b"hello"));
}

#[test]
fn another_key_a_changed_byte_and_a_bad_text_do_not_open(rt: HostRuntime) {
    let mut node = sealed_node(&part_of(b"dir/note", 5));
    assert!(rt; damage_of(&rt, &[8; 16], &node) == Some(Kind::Tag));
    node[3938] ^= 1;
    assert!(rt; damage_of(&rt, &USER, &node) == Some(Kind::Tag));
    let node = sealed_node(&part_of(b"", 5));
    assert!(rt; damage_of(&rt, &USER, &node) == Some(Kind::Text));
}

// The metadata of a new file.
fn secret_of(path: &str, size: u64) -> Option<MetaSecret> {
    let mut first = [0; 3072];
    first[..5].copy_from_slice(b"hello");
    Some(MetaSecret {
        path: PathText::new(path)?,
        size,
        root_key: [1; 16],
        root_tag: [2; 16],
        first,
    })
}

fn expect_same(rt: &impl Abort, secret: &MetaSecret, wanted: &MetaSecret) {
    assert!(rt; secret.path.as_str() == wanted.path.as_str());
    assert!(rt; secret.size == wanted.size);
    assert!(rt; secret.root_key == wanted.root_key);
    assert!(rt; secret.root_tag == wanted.root_tag);
    assert!(rt; secret.first == wanted.first);
}

fn expect_read_again(rt: &impl Abort, path: &str, size: u64) {
    let Some(wanted) = secret_of(path, size) else {
        panic!(rt; "no path");
    };
    let mut part = [0xff; 3880];
    wanted.write(&mut part);
    let Ok(secret) = MetaSecret::read(&part) else {
        panic!(rt; "no text");
    };
    expect_same(rt, &secret, &wanted);
}

#[test]
fn what_was_written_is_read_again(rt: HostRuntime) {
    for size in [0, 1, 3071, 3072, 1 << 32] {
        expect_read_again(&rt, "dir/note", size);
    }
    expect_read_again(&rt, "a", 5);
    let Ok(long) = str::from_utf8(&[b'a'; 767]) else {
        panic!(rt; "no text");
    };
    expect_read_again(&rt, long, 5);
}

#[test]
fn a_size_above_the_limit_is_written_and_not_read(rt: HostRuntime) {
    let size = (1 << 32) + 1;
    let Some(secret) = secret_of("dir/note", size) else {
        panic!(rt; "no path");
    };
    let mut part = [0xff; 3880];
    secret.write(&mut part);
    assert!(rt; part == part_of(b"dir/note", size), "the texts differ");
}

#[test]
fn a_node_sealed_over_other_bytes_opens_to_its_fields(rt: HostRuntime) {
    let Some(wanted) = secret_of("dir/note", 1 << 32) else {
        panic!(rt; "no path");
    };
    let mut node = [0xff; 4096];
    seal_meta(&USER, &NONCE, &wanted, &mut node);
    assert!(rt; damage_of(&rt, &[8; 16], &node) == Some(Kind::Tag));
    let Ok(secret) = open_meta(&USER, &node) else {
        panic!(rt; "the node does not open");
    };
    expect_same(&rt, &secret, &wanted);
}

fn counted() -> [u8; 32] {
    let mut bytes = [0; 32];
    for (k, byte) in bytes.iter_mut().enumerate() {
        *byte = k as u8;
    }
    bytes
}

// The 64-bit FNV-1a hash.
fn hash_of(bytes: &[u8]) -> u64 {
    let mut hash: u64 = 0xcbf2_9ce4_8422_2325;
    for byte in bytes {
        hash = (hash ^ *byte as u64).wrapping_mul(0x100_0000_01b3);
    }
    hash
}

// The tag and the hash of the node are of one that Python's cryptography sealed.
#[test]
fn a_whole_node_is_sealed_as_by_python(rt: HostRuntime) {
    let Some(path) = PathText::new("hello.pf") else {
        panic!(rt; "no path");
    };
    let mut first = [0; 3072];
    first[..5].copy_from_slice(b"hello");
    let secret = MetaSecret {
        path,
        size: 5,
        root_key: [0; 16],
        root_tag: [0; 16],
        first,
    };
    let user = 0x0001_0203_0405_0607_0809_0a0b_0c0d_0e0f_u128.to_be_bytes();
    let mut node = [0xff; 4096];
    seal_meta(&user, &counted(), &secret, &mut node);
    let Ok(plain) = MetaPlain::read(&node) else {
        panic!(rt; "no metadata node");
    };
    assert!(rt; plain.nonce == counted() && plain.flag == 0);
    assert!(rt; u128::from_be_bytes(plain.tag) == 0xcc94_7f3e_eabd_d9c5_4c8c_5fa0_371f_0168);
    assert!(rt; hash_of(&node) == 0xecbb_ff59_b452_0c73);
}
