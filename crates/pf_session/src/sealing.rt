//! The sealing of a tree's content into a file.
ghost use Rattle.std.specs.Prelude.{◌≡◌, List, ℕ, length, OnOk};
ghost use Rattle.pf_io.specs.Counts.{HasCause};
ghost use Rattle.pf_io.specs.Names.{side_of};
ghost use Rattle.node_tree.specs.Sheet.{Sheet};
ghost use Rattle.node_tree.specs.Next.{KeepsShape, IsSealedAs};
ghost use Rattle.node_layout.specs.Places.{node_count};
ghost use Rattle.pf_session.specs.Aside.{Aside};
ghost use Rattle.pf_session.specs.Copying.{clean_below};
ghost use Rattle.pf_session.specs.Steps.{seal_steps, node_of};
ghost use Rattle.pf_session.specs.Sealing.{ChangesAlone, HasNext};
ghost use Rattle.pf_session.specs.Flushing.{host_part};
ghost use Rattle.pf_session.specs.Making.{StepsGo, SealsNexts, ReplaceGoes, ReplacesNexts, StandsNexts, ReplaceUndamaged, KeptAtDamage};

use crate::copying::copy_clean;
use crate::fault::FlushFault;
use node_layout::{PathText, node_count, seal_meta};
use node_tree::Tree;
use pf_io::{Host, HostFault};

/// Node 0 of the tree's content.
pub(crate) fn make_node(
    key: &[u8; 16],
    path: &PathText,
    nonce: &[u8; 32],
    tree: &Tree,
) -> [u8; 4096]
    ensures same { result ≡ node_of key.now path.now nonce.now tree.now }
    ensures first { length tree.now.first ≡ 3072 }
{
    let secret = tree.meta(path);
    let mut node = [0; 4096];
    seal_meta(key, nonce, &secret, &mut node);
    node
}

/// Writes the dirty nodes and node 0 anew to a file, and syncs it.
pub(crate) fn seal_nodes<H: Host>(
    host: &mut H,
    name: &str,
    key: &[u8; 16],
    path: &PathText,
    nonce: &[u8; 32],
    tree: &mut Tree,
    keys: &[[u8; 16]],
) -> Result<(), HostFault>
    requires one_each { length keys.now ≡ length tree.old.dirty }
    ensures shape { KeepsShape tree.old tree.new }
    ensures sealed { OnOk result ((sheet next : Sheet) → HasNext sheet tree.old path.now nonce.now keys.now next → IsSealedAs next tree.new) }
    ensures goes { StepsGo result (seal_steps key.now path.now nonce.now name.now tree.old.dirty keys.now tree.new) (H.state host.old) (H.state host.new) }
    ensures cause { HasCause (H.state host.old).faults (H.state host.new).faults result }
    ensures alone { ChangesAlone name.now (H.state host.old) (H.state host.new) }
    ensures seals { SealsNexts result key.now path.now nonce.now name.now tree.old keys.now (H.state host.old) (H.state host.new) }
{
    tree.put_nodes(host, name, keys)?;
    let node = make_node(key, path, nonce, tree);
    host.write_at(name, 0, &node)?;
    host.sync(name)
}

/// Makes the side file of the tree's content, with the clean nodes of the file, and gives it the name.
pub(crate) fn replace<H: Host>(
    host: &mut H,
    name: &str,
    side: &str,
    key: &[u8; 16],
    path: &PathText,
    nonce: &[u8; 32],
    tree: &mut Tree,
    dirty: &[u64],
    keys: &[[u8; 16]],
) -> Result<(), FlushFault>
    requires side { side.now ≡ side_of name.now }
    requires dirty { dirty.now ≡ tree.old.dirty }
    requires one_each { length keys.now ≡ length tree.old.dirty }
    ensures shape { KeepsShape tree.old tree.new }
    ensures sealed { OnOk result ((sheet next : Sheet) → HasNext sheet tree.old path.now nonce.now keys.now next → IsSealedAs next tree.new) }
    ensures goes { ReplaceGoes result key.now path.now nonce.now name.now side.now (clean_below tree.old.dirty (node_count tree.old.size)) tree.old.dirty keys.now tree.new (H.state host.old) (H.state host.new) }
    ensures kept { KeptAtDamage result tree.old tree.new }
    ensures cause { HasCause (H.state host.old).faults (H.state host.new).faults (host_part result) }
    ensures short { ReplaceUndamaged result name.now (clean_below tree.old.dirty (node_count tree.old.size)) (H.state host.old) }
    ensures aside { Aside name.now (H.state host.old) (H.state host.new) }
    ensures stands { OnOk result (StandsNexts key.now path.now nonce.now name.now tree.old keys.now (H.state host.old) (H.state host.new)) }
    ensures replaces { ReplacesNexts result key.now path.now nonce.now name.now tree.old keys.now (H.state host.old) (H.state host.new) }
{
    host.make(side)?;
    copy_clean(host, name, side, dirty, node_count(tree.size()))?;
    seal_nodes(host, side, key, path, nonce, tree, keys)?;
    host.swap_name(side, name)?;
    Ok(())
}
