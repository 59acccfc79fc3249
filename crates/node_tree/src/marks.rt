//! The nodes that are marked as dirty.
ghost use Rattle.std.specs.Prelude.{◌≡◌, ◌+◌, ◌≤◌, length};
ghost use Rattle.std.specs.List.Sorted.{IsStrictlyIncreasing};
ghost use Rattle.node_tree.specs.State.{MOST_DIRTY};
ghost use Rattle.node_tree.specs.Marks.{marked, AreUnited};

use crate::nodes::HeldNode;
use arrayvec::ArrayVec;
use std::collections::BTreeMap;

// The numbers of the dirty nodes, in rising order.
pub(crate) fn dirty_numbers(nodes: &BTreeMap<u64, HeldNode>) -> ArrayVec<u64, 48>
    requires few { length (marked nodes.now.entries) ≤ MOST_DIRTY }
    ensures { result.items ≡ marked nodes.now.entries }
{
    let mut numbers = ArrayVec::new();
    for (number, node) in nodes {
        if node.dirty {
            numbers.push(*number);
        }
    }
    numbers
}

// How many nodes are in a list of dirty ones or touched.
pub(crate) fn count_changed(dirty: &[u64], touched: &[u64]) -> usize
    requires dirty_few { length dirty.now ≤ MOST_DIRTY }
    requires touched_few { length touched.now ≤ 32 }
    requires dirty_rises { IsStrictlyIncreasing dirty.now }
    requires touched_rises { IsStrictlyIncreasing touched.now }
    ensures united { AreUnited dirty.now touched.now result }
    ensures short { result ≤ length dirty.now + length touched.now }
{
    let mut count = dirty.len();
    for number in touched {
        if !dirty.contains(number) {
            count += 1;
        }
    }
    count
}
