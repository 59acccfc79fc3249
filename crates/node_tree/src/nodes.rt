//! The nodes that a tree keeps, and the fetching of those that it lacks.
ghost use Rattle.std.specs.Prelude.{◌≡◌, ◌⊎◌, ◌^◌, ◌<◌, ◌≤◌, ◌==◌, ℕ, List, [], ◌∷◌, All, length, replicate, OnOk, OnErr, IfOk, IfErr, if◌then◌else◌, Some, false};
ghost use Rattle.std.specs.List.Sorted.{IsStrictlyIncreasing};
ghost use Rattle.pf_io.specs.Host.{CountsRead};
ghost use Rattle.node_layout.specs.Places.{parent_of};
ghost use Rattle.node_tree.specs.Opened.{IsAt};
ghost use Rattle.node_tree.specs.Nodes.{Keeps, plain_at};
ghost use Rattle.node_tree.specs.Marks.{KeepsMarks, marked_at};
ghost use Rattle.node_tree.specs.Fetching.{Asking, NodeEnds, HasEntry, AreRooted, Fetches, missing_of};

use crate::fault::TreeFault;
use aes_gcm::{Key, open_in_place};
use node_layout::{Damage, Kind, entry, parent_of, slot_of};
use pf_io::Host;
use std::alloc::Global;
use std::collections::BTreeMap;

/// A node that is kept: its plain text, and whether it is dirty, that is, was changed since the last sealing.
#[derive(Drop)]
pub(crate) struct HeldNode {
    pub plain: Box<[u8; 4096]>,
    pub dirty: bool,
}

fn damaged(node: u64, kind: Kind) -> TreeFault
    ensures { result ≡ TreeFault.Damaged (record { node = node; kind = kind }) }
{
    TreeFault::Damaged(Damage { node, kind })
}

// A block of zeros.
pub(crate) fn blank(alloc: Global) -> Result<Box<[u8; 4096]>, TreeFault>
    ensures zeros { IfOk result (λ block. block.value ≡ replicate 4096 0) }
    ensures memory { IfErr result (λ fault. fault ≡ TreeFault.Memory) }
{
    match Box::new(alloc, [0; 4096]) {
        Ok(block) => Ok(block),
        Err(_) => Err(TreeFault::Memory),
    }
}

// Reads a node into a block and opens it there under a key and a tag.
fn open_node<H: Host>(
    host: &mut H,
    name: &str,
    number: u64,
    key: &[u8; 16],
    tag: &[u8; 16],
    block: &mut [u8; 4096],
) -> Result<(), TreeFault>
    requires { number < 2 ^ 30 }
    ensures asking { Asking result 1 (H.state host.old) (H.state host.new) }
    ensures counts { CountsRead 4096 (H.state host.old) (H.state host.new) }
    ensures ends { NodeEnds result block.new name.now number (key.now, tag.now) (H.state host.old) (H.state host.new) }
{
    let given = host.read_at(name, 4096 * number, block)?;
    if given < 4096 {
        return Err(damaged(number, Kind::Short));
    }
    if !open_in_place(&Key::new(key), &[], block, tag) {
        return Err(damaged(number, Kind::Tag));
    }
    Ok(())
}

// The key and the tag of a node: those of the root, or its entry in its parent.
fn entry_of(
    nodes: &BTreeMap<u64, HeldNode>,
    root: &([u8; 16], [u8; 16]),
    number: u64,
) -> ([u8; 16], [u8; 16])
    requires high { number < 2 ^ 30 }
    requires known { (number ≡ 1) ⊎ ((2 ≤ number) × IsAt (Keeps nodes.now) (parent_of number)) }
    ensures { HasEntry (Keeps nodes.now) root.now number result }
{
    if number == 1 {
        return *root;
    }
    match nodes.get(&parent_of(number)) {
        Some(parent) => entry(&parent.plain, slot_of(number)),
        None => unreachable!(),
    }
}

// Keeps a node that is not dirty.
pub(crate) fn keep(
    nodes: &mut BTreeMap<u64, HeldNode>,
    number: u64,
    plain: Box<[u8; 4096]>,
) -> Result<(), TreeFault>
    ensures ok { OnOk result ((k : ℕ) → plain_at nodes.new k ≡ (if k == number then Some plain.value else plain_at nodes.old k)) }
    ensures err { OnErr result ((k : ℕ) → plain_at nodes.new k ≡ plain_at nodes.old k) }
    ensures marks { marked_at nodes.old number ≡ false → KeepsMarks nodes.old nodes.new }
    ensures memory { IfErr result (λ fault. fault ≡ TreeFault.Memory) }
{
    let node = HeldNode {
        plain,
        dirty: false,
    };
    match nodes.insert(number, node) {
        Ok(_) => Ok(()),
        Err(_) => Err(TreeFault::Memory),
    }
}

// Fetches a node where it is not kept.
fn fetch<H: Host>(
    nodes: &mut BTreeMap<u64, HeldNode>,
    root: &([u8; 16], [u8; 16]),
    host: &mut H,
    name: &str,
    number: u64,
    alloc: Global,
) -> Result<(), TreeFault>
    requires high { number < 2 ^ 30 }
    requires known { (number ≡ 1) ⊎ ((2 ≤ number) × IsAt (Keeps nodes.old) (parent_of number)) }
    ensures asking { Asking result (length (missing_of (plain_at nodes.old) (number ∷ []))) (H.state host.old) (H.state host.new) }
    ensures fetches { Fetches result name.now (number ∷ []) (plain_at nodes.old) (plain_at nodes.new) root.now (H.state host.old) (H.state host.new) }
    ensures marks { KeepsMarks nodes.old nodes.new }
{
    if nodes.contains_key(&number) {
        return Ok(());
    }
    let (key, tag) = entry_of(nodes, root, number);
    let mut plain = blank(alloc)?;
    open_node(host, name, number, &key, &tag, &mut plain)?;
    keep(nodes, number, plain)
}

// Fetches those of some nodes that are not kept, in order.
pub(crate) fn fetch_all<H: Host>(
    nodes: &mut BTreeMap<u64, HeldNode>,
    root: &([u8; 16], [u8; 16]),
    host: &mut H,
    name: &str,
    numbers: &[u64],
    alloc: Global,
) -> Result<(), TreeFault>
    requires high { All (λ number. number < 2 ^ 30) numbers.now }
    requires rooted { AreRooted numbers.now }
    requires rising { IsStrictlyIncreasing numbers.now }
    ensures asking { Asking result (length (missing_of (plain_at nodes.old) numbers.now)) (H.state host.old) (H.state host.new) }
    ensures fetches { Fetches result name.now numbers.now (plain_at nodes.old) (plain_at nodes.new) root.now (H.state host.old) (H.state host.new) }
    ensures marks { KeepsMarks nodes.old nodes.new }
{
    for number in numbers {
        fetch(nodes, root, host, name, *number, alloc)?;
    }
    Ok(())
}
