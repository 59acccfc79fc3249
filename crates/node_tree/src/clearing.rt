//! The entries of children that are not live are made zeros.
ghost use Rattle.std.specs.Prelude.{◌≡◌, ◌≢◌, ◌^◌, ◌<◌, ◌≤◌, ℕ, List, [], ◌∷◌, Contains, length, Some};
ghost use Rattle.std.specs.List.Sorted.{IsStrictlyIncreasing};
ghost use Rattle.node_tree.specs.Opened.{IsAt};
ghost use Rattle.node_tree.specs.Nodes.{Keeps, plain_at};
ghost use Rattle.node_tree.specs.State.{AreBlocks};
ghost use Rattle.node_tree.specs.Marks.{KeepsMarks};
ghost use Rattle.node_tree.specs.Clearing.{child_of, IsPlaceCleared, HasCleared, IsNodeCleared, AreCleared};
ghost use Rattle.node_tree.specs.Sealing.{KeepsNodes};

use crate::nodes::HeldNode;
use node_layout::{data_place, mht_place, set_entry};
use std::collections::BTreeMap;

// The node whose entry stands at a place of a hash-tree node.
fn child_of(number: u64, slot: usize) -> u64
    requires low { 1 ≤ number }
    requires high { number < 2 ^ 29 }
    requires within { slot < 128 }
    ensures { result ≡ child_of number slot }
{
    let mht = (number - 1) / 97;
    if slot < 96 {
        data_place(96 * mht + slot as u64)
    } else {
        mht_place(32 * mht + (slot as u64 - 96) + 1)
    }
}

// Makes the entry at a place zeros, where its child is not live.
fn clear_place(plain: &mut [u8; 4096], number: u64, slot: usize, count: u64)
    requires low { 1 ≤ number }
    requires high { number < 2 ^ 29 }
    requires within { slot < 128 }
    ensures cleared { IsPlaceCleared count number slot plain.old plain.new }
    ensures same_length { length plain.new ≡ length plain.old }
{
    if child_of(number, slot) >= count {
        set_entry(plain, slot, &[0; 16], &[0; 16]);
    }
}

fn clear_node(plain: &mut [u8; 4096], number: u64, count: u64)
    requires low { 1 ≤ number }
    requires high { number < 2 ^ 29 }
    ensures cleared { HasCleared count number 128 plain.old plain.new }
    ensures same_length { length plain.new ≡ length plain.old }
{
    for slot in 0..128usize {
        clear_place(plain, number, slot, count);
    }
}

// Clears a node that is held.
fn clear_one(nodes: &mut BTreeMap<u64, HeldNode>, number: u64, count: u64)
    requires low { 1 ≤ number }
    requires high { number < 2 ^ 29 }
    requires held { IsAt (Keeps nodes.old) number }
    ensures here { (plain : List ℕ) → plain_at nodes.old number ≡ Some plain → IsNodeCleared count number plain (plain_at nodes.new number) }
    ensures others { (k : ℕ) → k ≢ number → plain_at nodes.new k ≡ plain_at nodes.old k }
    ensures marks { KeepsMarks nodes.old nodes.new }
{
    match nodes.get_mut(&number) {
        Some(node) => clear_node(&mut node.plain, number, count),
        None => unreachable!(),
    }
}

// Clears a node that is held, if it is a hash-tree node.
fn clear_hash(nodes: &mut BTreeMap<u64, HeldNode>, number: u64, count: u64)
    requires low { 1 ≤ number }
    requires high { number < 2 ^ 29 }
    requires held { IsAt (Keeps nodes.old) number }
    ensures cleared { AreCleared count (number ∷ []) (plain_at nodes.old) (plain_at nodes.new) }
    ensures keeps { KeepsNodes nodes.old nodes.new }
{
    if (number - 1) % 97 != 0 {
        return;
    }
    clear_one(nodes, number, count);
}

// Makes the entries of children that are not live zeros, in the hash-tree nodes of these numbers.
pub(crate) fn clear(nodes: &mut BTreeMap<u64, HeldNode>, numbers: &[u64], count: u64)
    requires rising { IsStrictlyIncreasing numbers.now }
    requires low { (k : ℕ) → Contains numbers.now k → 1 ≤ k }
    requires high { (k : ℕ) → Contains numbers.now k → k < 2 ^ 29 }
    requires held { (k : ℕ) → Contains numbers.now k → IsAt (Keeps nodes.old) k }
    ensures cleared { AreCleared count numbers.now (plain_at nodes.old) (plain_at nodes.new) }
    ensures keeps { KeepsNodes nodes.old nodes.new }
{
    for number in numbers {
        clear_hash(nodes, *number, count);
    }
}
