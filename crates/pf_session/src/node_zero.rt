// Node 0 of a protected file: read, checked and opened.
ghost use Rattle.std.specs.Prelude.{◌≡◌, ◌≤◌, ◌↔◌, IsTrue, IfOk, IfErr, take, option_map};
ghost use Rattle.node_layout.specs.Metadata.{magic, nonce_at};
ghost use Rattle.node_tree.specs.Fetching.{CountsReads};
ghost use Rattle.pf_io.specs.Counts.{HasCause};
ghost use Rattle.pf_io.specs.Unchanged.{KeepsDisk};
ghost use Rattle.pf_session.specs.Opening.{IsOpenable, BlockRefused, SecretRefused, IsAccepted, HasNodeZero, NodeRefused, opening_part};

use crate::open_fault::OpenFault;
use node_layout::{Damage, Kind, MetaPlain, MetaSecret, PlainFault, open_meta};
use pf_io::Host;

// A damage of node 0.
fn damaged(kind: Kind) -> OpenFault
    ensures { result ≡ OpenFault.Damaged (record { node = 0; kind = kind }) }
{
    OpenFault::Damaged(Damage { node: 0, kind })
}

fn has_magic(node: &[u8; 4096]) -> bool
    ensures { IsTrue result ↔ (take 8 node.now ≡ magic) }
{
    match MetaPlain::read(node) {
        Err(PlainFault::NotProtected) => false,
        Err(PlainFault::BadVersion { .. }) => true,
        Ok(_) => true,
    }
}

// The nonce of a node 0 that is whole, has no update pending and is of version 1.0.
fn check_node(node: &[u8; 4096], given: usize) -> Result<[u8; 32], OpenFault>
    requires { given ≤ 4096 }
    ensures openable { IfOk result (λ nonce. IsOpenable (take given node.now) × (nonce ≡ nonce_at node.now)) }
    ensures refused { IfErr result (BlockRefused (take given node.now)) }
{
    if given < 8 || !has_magic(node) {
        return Err(OpenFault::NotProtected);
    }
    if given < 4096 {
        return Err(damaged(Kind::Short));
    }
    if node[58] != 0 {
        return Err(OpenFault::Unbuilt);
    }
    match MetaPlain::read(node) {
        Ok(plain) => Ok(plain.nonce),
        Err(PlainFault::NotProtected) => Err(OpenFault::NotProtected),
        Err(PlainFault::BadVersion { major, minor }) => Err(OpenFault::BadVersion { major, minor }),
    }
}

/// Reads node 0 of a protected file, of a form that can be opened, and its nonce.
pub(crate) fn read_node_zero<H: Host>(
    host: &mut H,
    name: &str,
) -> Result<([u8; 4096], [u8; 32]), OpenFault>
    ensures cause { HasCause (H.state host.old).faults (H.state host.new).faults (opening_part result) }
    ensures few { CountsReads 1 (H.state host.old) (H.state host.new) }
    ensures disk { KeepsDisk (H.state host.old) (H.state host.new) }
    ensures read { IfOk result (HasNodeZero name.now (H.state host.old) (H.state host.new)) }
    ensures refused { IfErr result (NodeRefused name.now (H.state host.old) (H.state host.new)) }
{
    let Some(_) = host.len(name)? else {
        return Err(OpenFault::NotFound);
    };
    let mut node = [0; 4096];
    let given = host.read_at(name, 0, &mut node)?;
    let nonce = check_node(&node, given)?;
    Ok((node, nonce))
}

/// Opens node 0 under a key, and compares the path that it is stored under.
pub(crate) fn open_node_zero(
    key: &[u8; 16],
    node: &[u8; 4096],
    path: Option<&str>,
) -> Result<MetaSecret, OpenFault>
    requires { IsOpenable node.now }
    ensures accepted { IfOk result (IsAccepted key.now (option_map (λ p. p.now) path.entry) node.now) }
    ensures refused { IfErr result (SecretRefused key.now (option_map (λ p. p.now) path.entry) node.now) }
    ensures no_fault { opening_part result ≡ Ok tt }
{
    let secret = match open_meta(key, node) {
        Ok(secret) => secret,
        Err(kind) => return Err(damaged(kind)),
    };
    let Some(given) = path else {
        return Ok(secret);
    };
    if given == secret.path.as_str() {
        return Ok(secret);
    }
    Err(OpenFault::WrongPath {
        stored: secret.path,
    })
}
