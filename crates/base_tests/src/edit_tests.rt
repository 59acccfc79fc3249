//! Contents that are written, resized, sealed and read again.
ghost use Rattle.std.specs.Prelude.{◌≡◌, ◌≤◌, ◌^◌, length};

use crate::tree_tests::{
    NONCE, USER, content_byte, damaged, expect_pieces, expect_read, file_of, host_of, tree_of,
};
use node_layout::{Kind, PathText, data_place, parent_of, seal_meta};
use node_tree::{Tree, resized_range};
use pf_io::{Host, MemHost};
use std::alloc::Global;
use std::process::Abort;

fn empty_tree(rt: &impl Abort, alloc: Global) -> Tree {
    let Ok(tree) = Tree::empty(alloc) else {
        panic!(rt; "no memory");
    };
    tree
}

// A key for each place, the same at each call.
fn keys() -> [[u8; 16]; 48] {
    let mut keys = [[0; 16]; 48];
    for (place, key) in keys.iter_mut().enumerate() {
        *key = (place as u128).to_be_bytes();
    }
    keys
}

fn put_dirty(rt: &impl Abort, tree: &mut Tree, host: &mut MemHost) {
    let count = tree.dirty();
    assert!(rt; count <= 48);
    assert!(rt; tree.put_nodes(host, "a.pf", &keys()[..count]).is_ok());
}

fn put_meta(rt: &impl Abort, tree: &Tree, host: &mut MemHost) {
    let Some(path) = PathText::new("a.pf") else {
        panic!(rt; "no path");
    };
    let mut node = [0; 4096];
    seal_meta(&USER, &NONCE, &tree.meta(&path), &mut node);
    assert!(rt; host.write_at("a.pf", 0, &node).is_ok());
}

fn flush(rt: &impl Abort, tree: &mut Tree, host: &mut MemHost) {
    put_dirty(rt, tree, host);
    put_meta(rt, tree, host);
    tree.settle();
    assert!(rt; tree.dirty() == 0);
}

fn write_now(rt: &impl Abort, tree: &mut Tree, host: &mut MemHost, at: u64, from: &[u8])
    requires few { length from.now ≤ 32768 }
    requires small { at ≤ 2 ^ 31 }
{
    let end = at + from.len() as u64;
    assert!(rt; at <= tree.size());
    assert!(rt; tree.changed_count(at, end) <= 48);
    assert!(rt; tree.write(host, "a.pf", at, from) == Ok(()), "at {at}");
}

fn write(rt: &impl Abort, tree: &mut Tree, host: &mut MemHost, at: u64, from: &[u8])
    requires few { length from.now ≤ 32768 }
    requires small { at ≤ 2 ^ 31 }
{
    if tree.changed_count(at, at + from.len() as u64) > 48 {
        flush(rt, tree, host);
    }
    write_now(rt, tree, host, at, from);
}

fn write_piece(rt: &impl Abort, tree: &mut Tree, host: &mut MemHost, at: u64, piece: &mut [u8])
    requires few { length piece.old ≤ 32768 }
    requires small { at ≤ 2 ^ 31 }
{
    for (place, byte) in piece.iter_mut().enumerate() {
        *byte = content_byte(at.saturating_add(place as u64));
    }
    write(rt, tree, host, at, piece);
}

// Writes the content on, up to this size.
fn write_up_to(rt: &impl Abort, tree: &mut Tree, host: &mut MemHost, size: u64) {
    let old = tree.size();
    assert!(rt; old <= 1_000_000);
    let mut piece = [0; 32768];
    for number in 0..13u64 {
        let at = old + 32768 * number;
        let count = size.saturating_sub(at).min(32768) as usize;
        if count > 0 {
            write_piece(rt, tree, host, at, &mut piece[..count]);
        }
    }
}

// Writes the content on and seals it; its last bytes are read before, and of the file after.
fn expect_grown(rt: &impl Abort, alloc: Global, tree: &mut Tree, host: &mut MemHost, size: u64)
    requires { size ≤ 2 ^ 20 }
{
    let from = size.saturating_sub(100);
    write_up_to(rt, tree, host, size);
    expect_read(rt, tree, host, from, &mut [0; 100], (size - from) as usize);
    flush(rt, tree, host);
    let mut again = reopened(rt, alloc, tree, host);
    expect_read(
        rt,
        &mut again,
        host,
        from,
        &mut [0; 100],
        (size - from) as usize,
    );
}

fn reopened(rt: &impl Abort, alloc: Global, tree: &Tree, host: &MemHost) -> Tree {
    let Some(file) = host.bytes("a.pf") else {
        panic!(rt; "no file");
    };
    assert!(rt; file.len() as u64 == tree.base().saturating_mul(4096));
    tree_of(rt, alloc, file)
}

#[test]
fn what_was_written_is_read_before_and_after_a_flush(rt: HostRuntime) {
    let mut host = host_of(&rt, rt.alloc(), &[]);
    let mut tree = empty_tree(&rt, rt.alloc());
    for size in [0, 1, 3072, 3073, 7168, 7169, 396_288, 396_289] {
        expect_grown(&rt, rt.alloc(), &mut tree, &mut host, size);
    }
    let mut again = reopened(&rt, rt.alloc(), &tree, &host);
    expect_pieces(&rt, &mut again, &mut host, 396_289, &mut [0; 32768]);
}

// The nodes that are dirty or touched, one by one.
fn count_plainly(tree: &Tree, at: u64, end: u64) -> usize {
    let mut changed = [false; 512];
    for d in 0..400u64 {
        if at < end && 3072 + 4096 * d < end && at < 3072 + 4096 * (d + 1) {
            mark_path(&mut changed, data_place(d));
        }
    }
    for k in 0..tree.dirty() {
        if let Some(mark) = changed.get_mut(tree.dirty_at(k) as usize) {
            *mark = true;
        }
    }
    let mut count: usize = 0;
    for mark in &changed {
        if *mark {
            count = count.saturating_add(1);
        }
    }
    count
}

// Marks a node and those above it.
fn mark_path(changed: &mut [bool; 512], node: u64) {
    let mut number = node;
    for _ in 0..6u64 {
        if let Some(mark) = changed.get_mut(number as usize) {
            *mark = true;
        }
        if number >= 2 && number < 1000 {
            number = parent_of(number);
        }
    }
}

#[test]
fn changed_nodes_are_counted_as_a_plain_program_does(rt: HostRuntime) {
    let mut host = host_of(&rt, rt.alloc(), &[]);
    let mut tree = empty_tree(&rt, rt.alloc());
    write_up_to(&rt, &mut tree, &mut host, 400_000);
    for at in [0, 3071, 3072, 7168, 391_000, 396_288, 399_000] {
        for count in [0, 1, 2, 5000, 32768] {
            let end = at + count;
            let counted = tree.changed_count(at, end);
            assert!(rt; counted == count_plainly(&tree, at, end), "{at}");
        }
    }
}

#[test]
fn a_write_that_meets_damage_changes_nothing(rt: HostRuntime) {
    let Ok(mut file) = file_of(&rt, rt.alloc(), 396_289) else {
        panic!(rt; "no memory");
    };
    let mut tree = tree_of(&rt, rt.alloc(), &file);
    let mut host = host_of(&rt, rt.alloc(), &file);
    if let Some(byte) = file.get_mut(12_288) {
        *byte ^= 1;
    }
    let mut forged = host_of(&rt, rt.alloc(), &file);
    assert!(rt; tree.size() >= 9000);
    assert!(rt; tree.changed_count(3000, 9000) <= 48);
    let outcome = tree.write(&mut forged, "a.pf", 3000, &[255; 6000]);
    assert!(rt; outcome == Err(damaged(3, Kind::Tag)));
    assert!(rt; tree.dirty() == 0);
    expect_pieces(&rt, &mut tree, &mut host, 396_289, &mut [0; 32768]);
}

fn resize(rt: &impl Abort, tree: &mut Tree, host: &mut MemHost, size: u64)
    requires { size ≤ 2 ^ 31 }
{
    let old = tree.size();
    assert!(rt; size <= old + 32768);
    let (at, end) = resized_range(old, size);
    assert!(rt; at <= end && end <= at + 32768 && end <= 4_294_967_296);
    assert!(rt; tree.changed_count(at, end) <= 48);
    assert!(rt; tree.resize(host, "a.pf", size) == Ok(()));
}

fn expect_bytes(rt: &impl Abort, tree: &mut Tree, host: &mut MemHost, at: u64, wanted: [u8; 4]) {
    let mut to = [0; 4];
    assert!(rt; tree.read(host, "a.pf", at, &mut to) == Ok(4));
    assert!(rt; to == wanted);
}

#[test]
fn a_shrink_leaves_no_bytes_for_a_growth(rt: HostRuntime) {
    let mut host = host_of(&rt, rt.alloc(), &[]);
    let mut tree = empty_tree(&rt, rt.alloc());
    write(&rt, &mut tree, &mut host, 0, &[255; 9000]);
    resize(&rt, &mut tree, &mut host, 5000);
    flush(&rt, &mut tree, &mut host);
    assert!(rt; tree.holds(2) && !tree.holds(3));
    resize(&rt, &mut tree, &mut host, 9000);
    expect_bytes(&rt, &mut tree, &mut host, 4998, [255, 255, 0, 0]);
    resize(&rt, &mut tree, &mut host, 100);
    assert!(rt; tree.dirty() == 0 && tree.base() == 3);
    flush(&rt, &mut tree, &mut host);
    assert!(rt; tree.base() == 1);
    resize(&rt, &mut tree, &mut host, 5000);
    expect_bytes(&rt, &mut tree, &mut host, 98, [255, 255, 0, 0]);
    expect_bytes(&rt, &mut tree, &mut host, 4996, [0; 4]);
}
