//! Files of several sizes, sealed node by node, and read through their trees.
ghost use Rattle.std.specs.Prelude.{◌≡◌, ◌≤◌, ◌^◌, length};

use aes_gcm::{Key, seal_in_place};
use node_layout::{
    Damage, Kind, MetaPlain, MetaSecret, PathText, data_place, node_count, open_meta, parent_of,
    seal_meta, set_entry, slot_of,
};
use node_tree::{Tree, TreeFault};
use pf_io::MemHost;
use std::alloc::{AllocError, Global};
use std::process::Abort;

pub(crate) const USER: [u8; 16] = [7; 16];

pub(crate) const NONCE: [u8; 32] = [9; 32];

// A content that shows its place: 251 is a prime, so bytes of two nodes at one place differ.
pub(crate) fn content_byte(place: u64) -> u8 {
    (place % 251) as u8
}

fn key_of(number: usize) -> [u8; 16] {
    (number as u128).to_be_bytes()
}

// The plain text of data node `d` of a content of this size.
fn data_text(d: u64, size: u64) -> [u8; 4096] {
    let mut text = [0; 4096];
    let mut place = d.saturating_mul(4096).saturating_add(3072);
    for byte in &mut text {
        if place < size {
            *byte = content_byte(place);
        }
        place = place.saturating_add(1);
    }
    text
}

// The nodes from 1 on, the hash-tree nodes without entries.
fn plain_nodes(alloc: Global, size: u64) -> Result<Vec<[u8; 4096]>, AllocError>
    requires { size ≤ 2 ^ 20 }
{
    let mut nodes = vec![in alloc; [0; 4096]; node_count(size) as usize - 1]?;
    for d in 0..256u64 {
        let place = data_place(d) as usize - 1;
        if let Some(node) = nodes.get_mut(place) {
            *node = data_text(d, size);
        }
    }
    Ok(nodes)
}

fn put_entry(rt: &impl Abort, nodes: &mut Vec<[u8; 4096]>, number: u64, tag: &[u8; 16]) {
    assert!(rt; number >= 2 && number < 1000);
    let Some(parent) = nodes.get_mut(parent_of(number) as usize - 1) else {
        panic!(rt; "no parent");
    };
    set_entry(parent, slot_of(number), &key_of(number as usize), tag);
}

// Seals all nodes, children first, and gives the root's key and tag.
fn seal_nodes(rt: &impl Abort, nodes: &mut Vec<[u8; 4096]>) -> ([u8; 16], [u8; 16]) {
    let mut root = ([0; 16], [0; 16]);
    for number in (1..1000usize).rev() {
        let Some(node) = nodes.get_mut(number - 1) else {
            continue;
        };
        let tag = seal_in_place(&Key::new(&key_of(number)), &[], node);
        if number == 1 {
            root = (key_of(1), tag);
        } else {
            put_entry(rt, nodes, number as u64, &tag);
        }
    }
    root
}

// Node 0 of a content of this size.
fn metadata(rt: &impl Abort, size: u64, root: &([u8; 16], [u8; 16])) -> [u8; 4096] {
    let Some(path) = PathText::new("a.pf") else {
        panic!(rt; "no path");
    };
    let mut first = [0; 3072];
    for (place, byte) in first.iter_mut().enumerate() {
        if (place as u64) < size {
            *byte = content_byte(place as u64);
        }
    }
    let secret = MetaSecret {
        path,
        size,
        root_key: root.0,
        root_tag: root.1,
        first,
    };
    let mut node = [0; 4096];
    seal_meta(&USER, &NONCE, &secret, &mut node);
    node
}

// The file of a content of this size.
pub(crate) fn file_of(rt: &impl Abort, alloc: Global, size: u64) -> Result<Vec<u8>, AllocError>
    requires { size ≤ 2 ^ 20 }
{
    let mut nodes = plain_nodes(alloc, size)?;
    let root = seal_nodes(rt, &mut nodes);
    let mut file = Vec::new(alloc);
    file.extend_from_slice(&metadata(rt, size, &root))?;
    for node in &nodes {
        file.extend_from_slice(node)?;
    }
    Ok(file)
}

pub(crate) fn host_of(rt: &impl Abort, alloc: Global, file: &[u8]) -> MemHost {
    let mut host = MemHost::new(alloc);
    assert!(rt; host.put("a.pf", file).is_ok());
    host
}

fn secret_of(rt: &impl Abort, node: &[u8; 4096]) -> MetaSecret
    ensures { result.size ≤ 2 ^ 32 }
{
    assert!(rt; MetaPlain::read(node).is_ok());
    match open_meta(&USER, node) {
        Ok(secret) => secret,
        Err(_) => panic!(rt; "node 0 does not open"),
    }
}

pub(crate) fn tree_of(rt: &impl Abort, alloc: Global, file: &[u8]) -> Tree {
    let Some(node) = file.first_chunk::<4096>() else {
        panic!(rt; "no node 0");
    };
    let Ok(tree) = Tree::from_meta(alloc, &secret_of(rt, node)) else {
        panic!(rt; "no memory");
    };
    tree
}

pub(crate) fn expect_read(
    rt: &impl Abort,
    tree: &mut Tree,
    host: &mut MemHost,
    at: u64,
    to: &mut [u8],
    wanted: usize,
)
    requires { length to.old ≤ 32768 }
{
    assert!(rt; tree.read(host, "a.pf", at, to) == Ok(wanted), "at {at}");
    for (i, byte) in to.iter().take(wanted).enumerate() {
        let place = at.saturating_add(i as u64);
        assert!(rt; *byte == content_byte(place));
    }
}

// Reads a content of this size in pieces, from the first byte to the end and past it.
pub(crate) fn expect_pieces(
    rt: &impl Abort,
    tree: &mut Tree,
    host: &mut MemHost,
    size: u64,
    to: &mut [u8],
)
    requires { length to.old ≤ 32768 }
{
    for piece in 0..32u64 {
        let at = 32768 * piece;
        let wanted = size.saturating_sub(at).min(32768);
        expect_read(rt, tree, host, at, to, wanted as usize);
    }
}

fn expect_content(rt: &impl Abort, alloc: Global, file: &[u8], size: u64)
    requires { size ≤ 2 ^ 20 }
{
    let mut host = host_of(rt, alloc, file);
    let mut tree = tree_of(rt, alloc, file);
    assert!(rt; tree.size() == size);
    expect_pieces(rt, &mut tree, &mut host, size, &mut [0; 32768]);
}

#[test]
fn contents_of_several_sizes_are_read(rt: HostRuntime) {
    for size in [0, 3072, 3073, 7168, 396_288, 396_289] {
        let Ok(file) = file_of(&rt, rt.alloc(), size) else {
            panic!(rt; "no memory");
        };
        expect_content(&rt, rt.alloc(), &file, size);
    }
}

pub(crate) fn damaged(node: u64, kind: Kind) -> TreeFault {
    TreeFault::Damaged(Damage { node, kind })
}

#[test]
fn a_damaged_node_is_named_and_those_before_it_stay(rt: HostRuntime) {
    let Ok(mut file) = file_of(&rt, rt.alloc(), 396_289) else {
        panic!(rt; "no memory");
    };
    let mut tree = tree_of(&rt, rt.alloc(), &file);
    if let Some(byte) = file.get_mut(8192) {
        *byte ^= 1;
    }
    let mut host = host_of(&rt, rt.alloc(), &file);
    let mut to = [0; 100];
    let outcome = tree.read(&mut host, "a.pf", 3000, &mut to);
    assert!(rt; outcome == Err(damaged(2, Kind::Tag)));
    assert!(rt; tree.holds(1) && !tree.holds(2));
    if let Some(byte) = file.get_mut(8192) {
        *byte ^= 1;
    }
    let mut host = host_of(&rt, rt.alloc(), &file);
    expect_read(&rt, &mut tree, &mut host, 3000, &mut to, 100);
}

#[test]
fn a_short_node_and_a_failed_call_are_told_apart(rt: HostRuntime) {
    let Ok(file) = file_of(&rt, rt.alloc(), 396_289) else {
        panic!(rt; "no memory");
    };
    let mut tree = tree_of(&rt, rt.alloc(), &file);
    let Some(front) = file.get(..409_599) else {
        panic!(rt; "another length");
    };
    let mut host = host_of(&rt, rt.alloc(), front);
    assert!(rt; host.fail_at(1).is_ok());
    let mut to = [0; 2];
    let outcome = tree.read(&mut host, "a.pf", 396_288, &mut to);
    assert!(rt; outcome == Err(TreeFault::Host));
    assert!(rt; tree.holds(1) && !tree.holds(98));
    let outcome = tree.read(&mut host, "a.pf", 396_288, &mut to);
    assert!(rt; outcome == Err(damaged(99, Kind::Short)));
    let mut host = host_of(&rt, rt.alloc(), &file);
    expect_read(&rt, &mut tree, &mut host, 396_288, &mut to, 1);
}
