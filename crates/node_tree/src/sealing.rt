//! The sealing of dirty nodes, children first.
ghost use Rattle.std.specs.Prelude.{◌≡◌, ◌≢◌, ◌⊎◌, ◌^◌, ◌<◌, ◌≤◌, ◌*◌, ℕ, List, [], ◌∷◌, Contains, length, OnOk, Some};
ghost use Rattle.std.specs.List.Sorted.{IsStrictlyIncreasing};
ghost use Rattle.pf_io.specs.Counts.{HasCause};
ghost use Rattle.pf_io.specs.Host.{Wrote, Tells, OnDisk, CountsWrite};
ghost use Rattle.pf_io.specs.Moments.{Does, Ran};
ghost use Rattle.pf_io.specs.Steps.{Changes, Writes};
ghost use Rattle.node_layout.specs.Places.{parent_of};
ghost use Rattle.node_layout.specs.Entries.{with_entry};
ghost use Rattle.node_tree.specs.Opened.{IsAt};
ghost use Rattle.node_tree.specs.Nodes.{Keeps, plain_at};
ghost use Rattle.node_tree.specs.State.{AreBlocks};
ghost use Rattle.node_tree.specs.Marks.{KeepsMarks};
ghost use Rattle.node_tree.specs.Sealing.{KeepsNodes, CountsPuts, CountsWrites, IsEntryPut, ArePut, SealedFile, LeavesOutside, PutEnds, PutTold, entry_for, seal_for};

use crate::nodes::HeldNode;
use aes_gcm::{Key, seal_in_place};
use node_layout::{parent_of, set_entry, slot_of};
use pf_io::{Host, HostFault};
use std::collections::BTreeMap;

// The plain text of a node that is held.
fn held(nodes: &BTreeMap<u64, HeldNode>, number: u64) -> [u8; 4096]
    requires { IsAt (Keeps nodes.now) number }
    ensures { plain_at nodes.now number ≡ Some result }
{
    match nodes.get(&number) {
        Some(node) => *node.plain,
        None => unreachable!(),
    }
}

// Puts an entry into a node.
fn put_into(plain: &mut [u8; 4096], place: usize, key: &[u8; 16], tag: &[u8; 16])
    requires { place < 128 }
    ensures put { plain.new ≡ with_entry plain.old place key.now tag.now }
    ensures whole { length plain.old ≡ 4096 }
{
    set_entry(plain, place, key, tag);
}

// Puts an entry into a node that is held.
fn put_at(
    nodes: &mut BTreeMap<u64, HeldNode>,
    number: u64,
    place: usize,
    key: &[u8; 16],
    tag: &[u8; 16],
)
    requires held { IsAt (Keeps nodes.old) number }
    requires within { place < 128 }
    ensures here { (plain : List ℕ) → plain_at nodes.old number ≡ Some plain → plain_at nodes.new number ≡ Some (with_entry plain place key.now tag.now) }
    ensures whole { (plain : List ℕ) → plain_at nodes.old number ≡ Some plain → length plain ≡ 4096 }
    ensures others { (k : ℕ) → k ≢ number → plain_at nodes.new k ≡ plain_at nodes.old k }
    ensures marks { KeepsMarks nodes.old nodes.new }
{
    match nodes.get_mut(&number) {
        Some(node) => put_into(&mut node.plain, place, key, tag),
        None => unreachable!(),
    }
}

// Puts the entry of a node into its parent, or makes it the root's.
fn put_entry(
    nodes: &mut BTreeMap<u64, HeldNode>,
    root: &mut ([u8; 16], [u8; 16]),
    number: u64,
    key: &[u8; 16],
    tag: &[u8; 16],
)
    requires high { number < 2 ^ 30 }
    requires known { (number ≡ 1) ⊎ ((2 ≤ number) × IsAt (Keeps nodes.old) (parent_of number)) }
    ensures put { IsEntryPut number (key.now, tag.now) (plain_at nodes.old) (plain_at nodes.new) root.old root.new }
    ensures keeps { KeepsNodes nodes.old nodes.new }
{
    if number == 1 {
        *root = (*key, *tag);
        return;
    }
    put_at(nodes, parent_of(number), slot_of(number), key, tag);
}

// Seals a node under a key, puts its entry and writes it.
fn put_node<H: Host>(
    nodes: &mut BTreeMap<u64, HeldNode>,
    root: &mut ([u8; 16], [u8; 16]),
    host: &mut H,
    name: &str,
    number: u64,
    key: &[u8; 16],
) -> Result<(), HostFault>
    requires high { number < 2 ^ 30 }
    requires held { IsAt (Keeps nodes.old) number }
    requires known { (number ≡ 1) ⊎ ((2 ≤ number) × IsAt (Keeps nodes.old) (parent_of number)) }
    ensures cause { HasCause (H.state host.old).faults (H.state host.new).faults result }
    ensures counts { CountsWrite 4096 (H.state host.old) (H.state host.new) }
    ensures put { (plain : List ℕ) → plain_at nodes.old number ≡ Some plain → IsEntryPut number (entry_for key.now plain) (plain_at nodes.old) (plain_at nodes.new) root.old root.new }
    ensures keeps { KeepsNodes nodes.old nodes.new }
    ensures whole { (plain : List ℕ) → plain_at nodes.old number ≡ Some plain → length (seal_for key.now plain) ≡ 4096 }
    ensures told { (plain : List ℕ) → plain_at nodes.old number ≡ Some plain → Tells result (λ _. Wrote name.now (4096 * number) (seal_for key.now plain)) (H.state host.old) (H.state host.new) }
    ensures disk { (plain : List ℕ) → plain_at nodes.old number ≡ Some plain → OnDisk (H.state host.old) (H.state host.new) (Does (Changes name.now (Writes (4096 * number) (seal_for key.now plain) result))) }
{
    let mut block = held(nodes, number);
    let tag = seal_in_place(&Key::new(key), &[], &mut block);
    put_entry(nodes, root, number, key, &tag);
    host.write_at(name, 4096 * number, &block)
}

// Seals the nodes of these numbers under these keys and writes them, children first.
pub(crate) fn seal_nodes<H: Host>(
    nodes: &mut BTreeMap<u64, HeldNode>,
    root: &mut ([u8; 16], [u8; 16]),
    host: &mut H,
    name: &str,
    numbers: &[u64],
    keys: &[[u8; 16]],
) -> Result<(), HostFault>
    requires one_each { length keys.now ≡ length numbers.now }
    requires rising { IsStrictlyIncreasing numbers.now }
    requires low { (k : ℕ) → Contains numbers.now k → 1 ≤ k }
    requires high { (k : ℕ) → Contains numbers.now k → k < 2 ^ 29 }
    requires held { (k : ℕ) → Contains numbers.now k → IsAt (Keeps nodes.old) k }
    requires parents { (k : ℕ) → Contains numbers.now k → 2 ≤ k → Contains numbers.now (parent_of k) }
    ensures cause { HasCause (H.state host.old).faults (H.state host.new).faults result }
    ensures counts { CountsPuts (length keys.now) (H.state host.old) (H.state host.new) }
    ensures calls { OnOk result (CountsWrites (length keys.now) (H.state host.old) (H.state host.new)) }
    ensures put { OnOk result (ArePut numbers.now keys.now (plain_at nodes.old) (plain_at nodes.new) root.old root.new) }
    ensures keeps { KeepsNodes nodes.old nodes.new }
    ensures told { PutTold result name.now (plain_at nodes.new) numbers.now keys.now (H.state host.old) (H.state host.new) }
    ensures disk { OnDisk (H.state host.old) (H.state host.new) (Ran (LeavesOutside name.now numbers.now) (PutEnds result (SealedFile numbers.now keys.now (plain_at nodes.new) numbers.now) name.now)) }
{
    let mut left = numbers.len();
    while left > 0 {
        left -= 1;
        put_node(nodes, root, host, name, numbers[left], &keys[left])?;
    }
    Ok(())
}
