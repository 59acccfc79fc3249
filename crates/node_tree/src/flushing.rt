//! The sealing of a tree's changes.
ghost use Rattle.std.specs.Prelude.{◌≡◌, ℕ, List, length, OnOk};
ghost use Rattle.pf_io.specs.Counts.{HasCause};
ghost use Rattle.pf_io.specs.Host.{OnDisk};
ghost use Rattle.pf_io.specs.Moments.{Ran, Ends};
ghost use Rattle.node_tree.specs.Sheet.{Sheet};
ghost use Rattle.node_tree.specs.State.{held_at};
ghost use Rattle.node_tree.specs.Next.{SealsNext, IsSealedAs, KeepsShape, IsSettled};
ghost use Rattle.node_tree.specs.Stepping.{BacksWith};
ghost use Rattle.node_tree.specs.Sealing.{CountsPuts, CountsWrites, SealedFile, LeavesOutside, PutEnds, HasSealsOf, PutTold};

use crate::change::clear_marks;
use crate::clearing::clear;
use crate::marks::dirty_numbers;
use crate::sealing::seal_nodes;
use crate::tree::{Tree, sealed_root};
use node_layout::node_count;
use pf_io::{Host, HostFault};

impl Tree {
    /// Seals the dirty nodes and writes them to the host's file `name`, in falling number, so that each node's key and tag
    /// are in its parent, or are the root's, before that is sealed. The keys are those of the dirty nodes in rising
    /// number, one each. The entries of children that are not live are zeros in what is sealed.
    ///
    /// A fault comes where a write failed; no call is made after it, and the tree may only be dropped.
    pub fn put_nodes<H: Host>(
        &mut self,
        host: &mut H,
        name: &str,
        keys: &[[u8; 16]],
    ) -> Result<(), HostFault>
        requires one_each { length keys.now ≡ length self.old.dirty }
        ensures cause { HasCause (H.state host.old).faults (H.state host.new).faults result }
        ensures counts { CountsPuts (length keys.now) (H.state host.old) (H.state host.new) }
        ensures calls { OnOk result (CountsWrites (length keys.now) (H.state host.old) (H.state host.new)) }
        ensures rest { KeepsShape self.old self.new }
        ensures sealed { OnOk result ((sheet next : Sheet) → SealsNext sheet self.old keys.now next → IsSealedAs next self.new) }
        ensures told { PutTold result name.now (held_at self.new) self.old.dirty keys.now (H.state host.old) (H.state host.new) }
        ensures disk { OnDisk (H.state host.old) (H.state host.new) (Ran (LeavesOutside name.now self.old.dirty) (PutEnds result (SealedFile self.old.dirty keys.now (held_at self.new) self.old.dirty) name.now)) }
        ensures seals { (sheet next : Sheet) → SealsNext sheet self.old keys.now next → OnDisk (H.state host.old) (H.state host.new) (Ends (PutEnds result (λ old new. HasSealsOf next self.old.dirty old.bytes new.bytes) name.now)) }
    {
        let numbers = dirty_numbers(&self.nodes);
        clear(&mut self.nodes, &numbers, node_count(self.size));
        seal_nodes(&mut self.nodes, &mut self.root, host, name, &numbers, keys)
    }

    /// Makes the content the last sealed one: no node is dirty. It is called once `put_nodes` has answered Ok and the
    /// metadata (`meta`) are written, with no change between.
    pub fn settle(&mut self)
        ensures settled { IsSettled self.old self.new }
        ensures backed { (next : Sheet) → IsSealedAs next self.old → BacksWith next self.new next.content }
    {
        let numbers = dirty_numbers(&self.nodes);
        clear_marks(&mut self.nodes, &numbers);
        self.root = sealed_root(self.size, &self.root);
        self.base = node_count(self.size);
    }
}
