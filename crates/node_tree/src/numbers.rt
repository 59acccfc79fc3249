//! The nodes that some bytes of a content touch.
ghost use Rattle.std.specs.Prelude.{◌≡◌, ◌⊎◌, ◌+◌, ◌-◌, ◌*◌, ◌^◌, ◌<◌, ◌≤◌, [], length};
ghost use Rattle.std.specs.List.Sorted.{IsStrictlyIncreasing};
ghost use Rattle.node_layout.specs.Places.{data_place, up, levels_up};
ghost use Rattle.node_tree.specs.Touched.{AreTouched};
ghost use Rattle.node_tree.specs.Listing.{Adds, UpTo, ArePaths, AreLeaves, AddsLeaf, AddsData};

use arrayvec::ArrayVec;
use node_layout::{data_place, mht_place};

// The most levels that stand above a hash-tree node's own.
const LEVELS: u64 = 5;

// Puts a number that is not below the others behind them, where it is not the last of them.
fn add(numbers: &mut ArrayVec<u64, 32>, number: u64)
    requires room { length numbers.old.items < 32 }
    requires rising { IsStrictlyIncreasing numbers.old.items }
    requires order { UpTo numbers.old.items number }
    ensures { Adds numbers.old.items numbers.new.items number }
{
    if numbers.last().copied() != Some(number) {
        numbers.push(number);
    }
}

// The hash-tree node with the entry of another; the root is its own.
fn above(m: u64) -> u64
    ensures { result ≡ up m }
{
    m.saturating_sub(1) / 32
}

// The hash-tree nodes from these two up to the root.
fn add_paths(numbers: &mut ArrayVec<u64, 32>, low: u64, high: u64, levels: u64)
    requires empty { numbers.old.items ≡ [] }
    requires order { low ≤ high }
    requires beside { high ≤ low + 1 }
    requires small { high < 2 ^ 29 }
    requires few { levels ≤ 5 }
    requires above { levels_up levels high ≡ 0 }
    ensures paths { ArePaths numbers.new.items low high }
    ensures short { length numbers.new.items ≤ 2 * levels + 2 }
{
    if levels == 0 {
        add(numbers, mht_place(low));
        return;
    }
    add_paths(numbers, above(low), above(high), levels - 1);
    add(numbers, mht_place(low));
    add(numbers, mht_place(high));
}

// The hash-tree nodes above two, and the first of the two.
fn add_first_leaf(numbers: &mut ArrayVec<u64, 32>, low: u64, high: u64)
    requires empty { numbers.old.items ≡ [] }
    requires order { low ≤ high }
    requires beside { high ≤ low + 1 }
    requires small { high < 2 ^ 22 }
    ensures leaves { AreLeaves numbers.new.items low high }
    ensures short { length numbers.new.items ≤ 11 }
{
    add_paths(numbers, above(low), above(high), LEVELS - 1);
    add(numbers, mht_place(low));
}

// A hash-tree node, before the first data node that has its entry in it.
fn add_leaf(numbers: &mut ArrayVec<u64, 32>, d: u64)
    requires room { length numbers.old.items < 32 }
    requires rising { IsStrictlyIncreasing numbers.old.items }
    requires order { UpTo numbers.old.items (data_place d - 1) }
    requires small { d < 2 ^ 29 }
    ensures { AddsLeaf numbers.old.items numbers.new.items d }
{
    if d % 96 == 0 {
        add(numbers, mht_place(d / 96));
    }
}

// A data node, and its hash-tree node before it where it is the first there.
fn add_data(numbers: &mut ArrayVec<u64, 32>, d: u64)
    requires room { length numbers.old.items < 31 }
    requires rising { IsStrictlyIncreasing numbers.old.items }
    requires order { UpTo numbers.old.items (data_place d - 1) }
    requires small { d < 2 ^ 29 }
    ensures { AddsData numbers.old.items numbers.new.items d }
{
    add_leaf(numbers, d);
    add(numbers, data_place(d));
}

/// The nodes that the bytes from `at` up to `end` touch, in rising order.
pub fn touched(at: u64, end: u64) -> ArrayVec<u64, 32>
    requires order { at ≤ end }
    requires near { end ≤ at + 32768 }
    requires high { end ≤ 2 ^ 40 }
    ensures { AreTouched at end result.items }
{
    let mut numbers = ArrayVec::new();
    if at == end || end <= 3072 {
        return numbers;
    }
    let first = at.saturating_sub(3072) / 4096;
    let last = (end - 3073) / 4096;
    add_first_leaf(&mut numbers, first / 96, last / 96);
    for d in first..last + 1 {
        add_data(&mut numbers, d);
    }
    numbers
}
