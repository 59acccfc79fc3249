//! The bytes of a content, copied out of its nodes.
ghost use Rattle.std.specs.Prelude.{◌≡◌, ◌+◌, ◌-◌, ◌^◌, ◌<◌, ◌≤◌, ◌≢◌, ℕ, List, min, length, slice_index, Some};
ghost use Rattle.node_layout.specs.Places.{data_place};
ghost use Rattle.node_tree.specs.Content.{bytes_of};
ghost use Rattle.node_tree.specs.Touched.{Meets};
ghost use Rattle.node_tree.specs.Opened.{IsAt};
ghost use Rattle.node_tree.specs.Nodes.{Keeps, plain_at, kept_plain};
ghost use Rattle.node_tree.specs.Copying.{Copies};

use crate::nodes::HeldNode;
use node_layout::data_place;
use std::collections::BTreeMap;

// Copies bytes from a place on, to a place on, as far as either reaches, and answers how many.
fn copy_piece(from: &[u8], place: usize, to: &mut [u8], done: usize) -> usize
    requires place { place ≤ length from.now }
    requires done { done ≤ length to.old }
    ensures count { result ≡ min (length to.old - done) (length from.now - place) }
    ensures copies { Copies from.now place result done to.old to.new }
{
    let count = (to.len() - done).min(from.len() - place);
    to[done..done + count].copy_from_slice(&from[place..place + count]);
    count
}

// The plain text of a node that is kept.
fn kept(nodes: &BTreeMap<u64, HeldNode>, number: u64) -> &[u8; 4096]
    requires { IsAt (Keeps nodes.now) number }
    ensures { plain_at nodes.now number ≡ Some result.now }
{
    match nodes.get(&number) {
        Some(node) => &node.plain,
        None => unreachable!(),
    }
}

// The bytes of a content from a place on.
pub(crate) fn copy_out(first: &[u8; 3072], nodes: &BTreeMap<u64, HeldNode>, at: u64, to: &mut [u8])
    requires held { (d : ℕ) → Meets at (at + length to.old) d → IsAt (Keeps nodes.now) (data_place d) }
    requires high { at + length to.old ≤ 2 ^ 40 }
    ensures { to.new ≡ bytes_of first.now (kept_plain nodes.now) at (length to.old) }
{
    let mut done = copy_piece(first, at.min(3072) as usize, to, 0);
    while done < to.len() {
        let from = at + done as u64 - 3072;
        let plain = kept(nodes, data_place(from / 4096));
        done += copy_piece(plain, (from % 4096) as usize, to, done);
    }
}
