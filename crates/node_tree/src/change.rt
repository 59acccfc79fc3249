//! Nodes that come, are marked, and go.
ghost use Rattle.std.specs.Prelude.{◌≡◌, ◌⊎◌, ◌↔◌, ◌==◌, ◌<◌, ◌≤◌, ℕ, length, Contains, if◌then◌else◌, true, false, None, OnOk, IfErr};
ghost use Rattle.std.specs.List.Sorted.{IsStrictlyIncreasing};
ghost use Rattle.std.specs.Ordering.{nat_cmp};
ghost use Rattle.std.specs.BTreeMap.{IsOrdered, ContainsKey, btree_map_len, get};
ghost use Rattle.node_tree.specs.Opened.{IsAt};
ghost use Rattle.node_tree.specs.Nodes.{Keeps, plain_at};
ghost use Rattle.node_tree.specs.Marks.{KeepsMarks, marked_at};
ghost use Rattle.node_tree.specs.Zeroing.{IsZeroed, IsCountBelow, MayZero, IsCutAt};

use crate::fault::TreeFault;
use crate::nodes::{HeldNode, blank, keep};
use std::alloc::Global;
use std::collections::BTreeMap;

// How many of some numbers, which rise, are below a bound.
pub(crate) fn count_below(numbers: &[u64], bound: u64) -> usize
    requires { IsStrictlyIncreasing numbers.now }
    ensures { IsCountBelow numbers.now bound result }
{
    let mut count = 0;
    while count < numbers.len() && numbers[count] < bound {
        count += 1;
    }
    count
}

// Keeps a node of zeros at each of some numbers, none of which is dirty.
pub(crate) fn add_zeroed(
    nodes: &mut BTreeMap<u64, HeldNode>,
    numbers: &[u64],
    alloc: Global,
) -> Result<(), TreeFault>
    requires clean { (k : ℕ) → Contains numbers.now k → marked_at nodes.old k ≡ false }
    ensures zeroed { OnOk result (IsZeroed (length numbers.now) numbers.now (plain_at nodes.old) (plain_at nodes.new)) }
    ensures may { MayZero numbers.now (plain_at nodes.old) (plain_at nodes.new) }
    ensures marks { KeepsMarks nodes.old nodes.new }
    ensures memory { IfErr result (λ fault. fault ≡ TreeFault.Memory) }
{
    for number in numbers {
        let block = blank(alloc)?;
        keep(nodes, *number, block)?;
    }
    Ok(())
}

// Says of a node that is held whether it is dirty.
fn set_mark(nodes: &mut BTreeMap<u64, HeldNode>, number: u64, dirty: bool)
    requires held { IsAt (Keeps nodes.old) number }
    ensures plains { (k : ℕ) → plain_at nodes.new k ≡ plain_at nodes.old k }
    ensures marks { (k : ℕ) → marked_at nodes.new k ≡ (if k == number then dirty else marked_at nodes.old k) }
    ensures ordered { IsOrdered nat_cmp nodes.new }
{
    match nodes.get_mut(&number) {
        Some(node) => node.dirty = dirty,
        None => unreachable!(),
    }
}

// Marks some nodes, which are held, as dirty.
pub(crate) fn mark(nodes: &mut BTreeMap<u64, HeldNode>, numbers: &[u64])
    requires held { (k : ℕ) → Contains numbers.now k → IsAt (Keeps nodes.old) k }
    ensures plains { (k : ℕ) → plain_at nodes.new k ≡ plain_at nodes.old k }
    ensures marks { (k : ℕ) → (marked_at nodes.new k ≡ true) ↔ ((marked_at nodes.old k ≡ true) ⊎ Contains numbers.now k) }
    ensures ordered { IsOrdered nat_cmp nodes.old → IsOrdered nat_cmp nodes.new }
{
    for number in numbers {
        set_mark(nodes, *number, true);
    }
}

// Says of some nodes, which are held, that they are not dirty.
pub(crate) fn clear_marks(nodes: &mut BTreeMap<u64, HeldNode>, numbers: &[u64])
    requires held { (k : ℕ) → Contains numbers.now k → IsAt (Keeps nodes.old) k }
    ensures plains { (k : ℕ) → plain_at nodes.new k ≡ plain_at nodes.old k }
    ensures marks { (k : ℕ) → marked_at nodes.new k ≡ true → (marked_at nodes.old k ≡ true) × ¬ (Contains numbers.now k) }
    ensures ordered { IsOrdered nat_cmp nodes.old → IsOrdered nat_cmp nodes.new }
{
    for number in numbers {
        set_mark(nodes, *number, false);
    }
}

// Whether a node of this number or a higher one is kept.
fn reaches(nodes: &BTreeMap<u64, HeldNode>, bound: u64) -> bool
    ensures some { result ≡ true → (k : ℕ) × (bound ≤ k) × ContainsKey nat_cmp nodes.now k }
    ensures none { result ≡ false → (k : ℕ) → bound ≤ k → get nat_cmp nodes.now k ≡ None }
{
    match nodes.last_key_value() {
        Some((number, _)) => *number >= bound,
        None => false,
    }
}

fn drop_last(nodes: &mut BTreeMap<u64, HeldNode>, bound: u64)
    requires reaches { (k : ℕ) × (bound ≤ k) × ContainsKey nat_cmp nodes.old k }
    ensures below { (k : ℕ) → k < bound → get nat_cmp nodes.new k ≡ get nat_cmp nodes.old k }
    ensures fewer { btree_map_len nodes.new < btree_map_len nodes.old }
    ensures ordered { IsOrdered nat_cmp nodes.new }
{
    nodes.pop_last();
}

// Lets all nodes go from a number on.
pub(crate) fn drop_from(nodes: &mut BTreeMap<u64, HeldNode>, bound: u64)
    ensures cut { IsCutAt bound (get nat_cmp nodes.old) (get nat_cmp nodes.new) }
    ensures ordered { IsOrdered nat_cmp nodes.old → IsOrdered nat_cmp nodes.new }
{
    while reaches(nodes, bound) {
        drop_last(nodes, bound);
    }
}
