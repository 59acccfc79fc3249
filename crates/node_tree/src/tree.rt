//! The tree of a protected file's nodes.
ghost use Rattle.std.specs.Prelude.{◌≡◌, ◌+◌, ◌^◌, ◌-◌, min, ◌<◌, ◌≤◌, ◌==◌, ℕ, List, [], length, replicate, slice_index, if◌then◌else◌, IfOk, IsOk, OnErr, is_some};
ghost use Rattle.pf_io.specs.Counts.{HasCause};
ghost use Rattle.pf_io.specs.Host.{KeepsRest};
ghost use Rattle.pf_io.specs.Unchanged.{KeepsDisk};
ghost use Rattle.node_layout.specs.Places.{node_count};
ghost use Rattle.node_tree.specs.Sheet.{Sheet, IsLinked};
ghost use Rattle.node_tree.specs.State.{held_at, sealed_root, IsSound, MOST_DIRTY, NO_ENTRY};
ghost use Rattle.node_tree.specs.Marks.{IsChangedCount, MayChange};
ghost use Rattle.node_tree.specs.Fetching.{host_part};
ghost use Rattle.node_tree.specs.Backing.{Backs, IsMetaOf, now};
ghost use Rattle.node_tree.specs.Next.{IsSealedAs};
ghost use Rattle.node_tree.specs.Reading.{Reads, ReadsFew, DamageComes, BackedRead, ReadsStanding, HonestRead, IsOfFile};

use crate::copying::copy_out;
use crate::fault::TreeFault;
use crate::marks::{count_changed, dirty_numbers};
use crate::nodes::{HeldNode, fetch_all};
use crate::numbers::touched;
use node_layout::{MetaSecret, PathText, node_count};
use pf_io::{Host, Memory};
use std::alloc::Global;
use std::collections::BTreeMap;
use std::marker::Model;

/// The tree of a protected file: its first bytes, its root's key and tag, and the nodes that it holds in plain text.
///
/// Contracts see it as a `TreeState`. Its content is `now sheet tree`, for the sheet on which it stands.
#[derive(Drop)]
pub struct Tree {
    pub(crate) size: u64,
    pub(crate) first: [u8; 3072],
    pub(crate) root: ([u8; 16], [u8; 16]),
    pub(crate) base: u64,
    pub(crate) nodes: BTreeMap<u64, HeldNode>,
    pub(crate) alloc: Global,
}

impl Model for Tree {
    ghost use Rattle.node_tree.specs.State.{TreeState, state_code};

    ghost Value = { TreeState };

    ghost coded = { state_code };

    ghost use Rattle.node_tree.specs.Inside.{state_of, IsWell};

    ghost view = { state_of };

    ghost invariant = { IsWell };
}

impl Tree {
    /// The tree of an empty content that was not changed since its sealing. `Memory` is want of memory.
    pub fn empty(alloc: Global) -> Result<Tree, Memory>
        ensures fields { IfOk result (λ tree. tree ≡ record { size = 0; first = replicate 3072 0; root_key = NO_ENTRY.0; root_tag = NO_ENTRY.1; base = 1; held = []; dirty = [] }) }
        ensures backed { IfOk result (λ tree. (sheet : Sheet) → IsLinked sheet → sheet.content ≡ [] → Backs sheet tree × (now sheet tree ≡ [])) }
    {
        Ok(Tree {
            size: 0,
            first: [0; 3072],
            root: ([0; 16], [0; 16]),
            base: 1,
            nodes: BTreeMap::new(alloc),
            alloc,
        })
    }

    /// The tree of a file with these metadata, whose size is at most 2^32. It holds no node. `Memory` is want of memory.
    pub fn from_meta(alloc: Global, meta: &MetaSecret) -> Result<Tree, Memory>
        requires { meta.now.size ≤ 2 ^ 32 }
        ensures made { IsOk result }
        ensures fields { IfOk result (λ tree. tree ≡ record { size = meta.now.size; first = meta.now.first; root_key = meta.now.root_key; root_tag = meta.now.root_tag; base = node_count meta.now.size; held = []; dirty = [] }) }
        ensures backed { IfOk result (λ tree. (sheet : Sheet) → IsLinked sheet → IsMetaOf sheet meta.now → Backs sheet tree × (now sheet tree ≡ sheet.content)) }
        ensures of_file { IfOk result (λ tree. (file : List ℕ) → IsOfFile file tree) }
    {
        Ok(Tree {
            size: meta.size,
            first: meta.first,
            root: (meta.root_key, meta.root_tag),
            base: node_count(meta.size),
            nodes: BTreeMap::new(alloc),
            alloc,
        })
    }

    /// The length of the content in bytes, at most 2^32.
    pub fn size(&self) -> u64
        ensures same { result ≡ self.now.size }
        ensures small { result ≤ 2 ^ 32 }
    {
        self.size
    }

    /// How many nodes the last sealed content has.
    pub fn base(&self) -> u64
        ensures { result ≡ self.now.base }
    {
        self.base
    }

    /// How many nodes were changed since the last sealing, at most 48.
    pub fn dirty(&self) -> usize
        ensures same { result ≡ length self.now.dirty }
        ensures sound { IsSound self.now }
    {
        dirty_numbers(&self.nodes).len()
    }

    /// The `k`-th of the dirty nodes in rising number, from 0.
    pub fn dirty_at(&self, k: usize) -> u64
        requires { k < length self.now.dirty }
        ensures { result ≡ slice_index self.now.dirty k }
    {
        dirty_numbers(&self.nodes)[k]
    }

    /// How many nodes are dirty or touched by the bytes from `at` up to `end`.
    pub fn changed_count(&self, at: u64, end: u64) -> usize
        requires order { at ≤ end }
        requires near { end ≤ at + 32768 }
        requires small { end ≤ 2 ^ 32 }
        ensures count { IsChangedCount self.now.dirty at end result }
        ensures few { result ≤ MOST_DIRTY → MayChange self.now.dirty at end }
        ensures touched { result ≤ length self.now.dirty + 32 }
    {
        count_changed(&dirty_numbers(&self.nodes), &touched(at, end))
    }

    /// The metadata of the content as it is to be sealed under a path. The root's key and tag are those of its last
    /// sealing, or zeros where the content stands in node 0 alone.
    pub fn meta(&self, path: &PathText) -> MetaSecret
        ensures fields { result ≡ record { path = path.now; size = self.now.size; root_key = (sealed_root self.now).0; root_tag = (sealed_root self.now).1; first = self.now.first } }
        ensures sealed { (next : Sheet) → IsSealedAs next self.now → next.path ≡ path.now → IsMetaOf next result }
    {
        let (root_key, root_tag) = sealed_root(self.size, &self.root);
        MetaSecret {
            path: copy_of(path),
            size: self.size,
            root_key,
            root_tag,
            first: self.first,
        }
    }

    /// Whether the tree holds the node of this number.
    pub fn holds(&self, number: u64) -> bool
        ensures { result ≡ is_some (held_at self.now number) }
    {
        self.nodes.contains_key(&number)
    }

    /// Reads the content from the byte at `at` on, as far as `to`, of at most 32,768 bytes, and the content reach, and
    /// answers how many bytes.
    ///
    /// The touched nodes that are not held are fetched from the host's file `name` in rising number and opened. At `Ok`
    /// all of them are held; where the read fails at a later one, they may be. `Damaged` names the first that is short or
    /// does not open under its entry. `Host` comes where a call of the host failed, and `Memory` is want of memory. The
    /// content stays.
    pub fn read<H: Host>(
        &mut self,
        host: &mut H,
        name: &str,
        at: u64,
        to: &mut [u8],
    ) -> Result<usize, TreeFault>
        requires { length to.old ≤ 32768 }
        ensures reads { Reads result name.now at to.new self.old self.new (H.state host.old) (H.state host.new) }
        ensures rest { IfOk result (λ n. KeepsRest n to.old to.new) }
        ensures unchanged { OnErr result (to.new ≡ to.old) }
        ensures cause { HasCause (H.state host.old).faults (H.state host.new).faults (host_part result) }
        ensures few { ReadsFew at (length to.old) self.old (H.state host.old) (H.state host.new) }
        ensures disk { KeepsDisk (H.state host.old) (H.state host.new) }
        ensures damage { DamageComes result name.now at (length to.old) self.old (H.state host.old) (H.state host.new) }
        ensures backed { BackedRead result name.now at to.new self.old self.new (H.state host.old) (H.state host.new) }
        ensures standing { ReadsStanding result name.now at to.new self.old self.new (H.state host.old) }
        ensures honest { HonestRead result name.now at to.new self.old self.new (H.state host.old) }
    {
        let count = readable(self.size, at, to.len());
        if count == 0 {
            return Ok(0);
        }
        let numbers = touched(at, at + count as u64);
        fetch_all(
            &mut self.nodes,
            &self.root,
            host,
            name,
            &numbers,
            self.alloc,
        )?;
        copy_out(&self.first, &self.nodes, at, &mut to[..count]);
        Ok(count)
    }
}

// A path again.
fn copy_of(path: &PathText) -> PathText
    ensures { result ≡ path.now }
{
    match PathText::new(path.as_str()) {
        Some(copy) => copy,
        None => unreachable!(),
    }
}

// The root's key and tag, or zeros where a content of this size has no root.
pub(crate) fn sealed_root(size: u64, root: &([u8; 16], [u8; 16])) -> ([u8; 16], [u8; 16])
    requires { size ≤ 2 ^ 32 }
    ensures { result ≡ (if node_count size == 1 then NO_ENTRY else root.now) }
{
    if node_count(size) == 1 {
        ([0; 16], [0; 16])
    } else {
        *root
    }
}

// How many bytes of a room can be read from a place on.
fn readable(size: u64, at: u64, room: usize) -> usize
    requires { room ≤ 32768 }
    ensures { result ≡ min room (size - at) }
{
    size.saturating_sub(at).min(room as u64) as usize
}
