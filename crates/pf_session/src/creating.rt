//! The creation of a protected file.
ghost use Rattle.std.specs.Prelude.{◌≡◌, ◌↔◌, IsTrue, IsSome, IfSome, IfOk, OnErr, length, replicate};
ghost use Rattle.node_layout.specs.Metadata.{IsPath};
ghost use Rattle.pf_io.specs.Host.{OnDisk};
ghost use Rattle.pf_io.specs.Moments.{Ran};
ghost use Rattle.pf_io.specs.Names.{IsTarget, side_of, recovery_of};
ghost use Rattle.pf_session.specs.Aside.{Aside};
ghost use Rattle.pf_session.specs.Making.{StepsGo};
ghost use Rattle.pf_session.specs.Placing.{MakeLeaves, PlaceGoes, make_steps};
ghost use Rattle.pf_session.specs.Sealing.{LeavesOthers};
ghost use Rattle.pf_session.specs.Creating.{AreNamed, CreateGoes, BesideGoes, empty_tree, empty_node, fresh};

use crate::drawing::draw_nonce;
use crate::fault::{BesideFault, CreateFault};
use crate::sealing::make_node;
use crate::session::Session;
use node_layout::PathText;
use node_tree::Tree;
use pf_io::{Host, HostFault, Memory, Text, Words, is_target};
use std::alloc::Global;

// The path, where a protected file may have the name and be stored under the path.
fn named_path(name: &str, path: &str) -> Option<PathText>
    ensures named { IsSome result ↔ AreNamed name.now path.now }
    ensures same { IfSome result (λ stored. stored ≡ path.now) }
{
    if !is_target(name) {
        return None;
    }
    PathText::new(path)
}

// A session on a file of an empty content that is still to be made. Its nonce is none yet.
fn prepare(
    alloc: Global,
    key: &[u8; 16],
    name: &str,
    path: PathText,
    beside: bool,
) -> Result<Session, Memory>
    requires target { IsTarget name.now }
    requires path { IsPath path }
    ensures { IfOk result (λ session. session ≡ fresh key.now name.now path (replicate 32 0) beside) }
{
    let side = Text::joined(alloc, name, ".new")?;
    let name = Text::copy(alloc, name)?;
    let tree = Tree::empty(alloc)?;
    Ok(Session {
        key: *key,
        name,
        side,
        path,
        nonce: [0; 32],
        drawn: None,
        tree,
        changed: false,
        broken: false,
        beside,
    })
}

// Makes a side file of this node 0, which stays after a crash.
fn make_side<H: Host>(host: &mut H, side: &str, node: &[u8; 4096]) -> Result<(), HostFault>
    ensures goes { StepsGo result (make_steps side.now node.now) (H.state host.old) (H.state host.new) }
    ensures disk { OnDisk (H.state host.old) (H.state host.new) (Ran (LeavesOthers side.now) (MakeLeaves result side.now node.now)) }
{
    host.make(side)?;
    host.write_at(side, 0, node)?;
    host.sync(side)
}

// Puts this node 0 under a name: makes the side file and gives it the name, once nothing is pending at the recovery name.
fn place<H: Host>(
    host: &mut H,
    name: &str,
    side: &str,
    recovery: &str,
    node: &[u8; 4096],
) -> Result<(), HostFault>
    requires side { side.now ≡ side_of name.now }
    requires recovery { recovery.now ≡ recovery_of name.now }
    ensures { PlaceGoes result name.now node.now (H.state host.old) (H.state host.new) }
{
    host.sync(recovery)?;
    make_side(host, side, node)?;
    host.swap_name(side, name)
}

impl Session {
    // Takes the nonce of the first sealing, and gives its node 0.
    fn seal_empty(&mut self, nonce: [u8; 32]) -> [u8; 4096]
        requires { self.old.tree ≡ empty_tree }
        ensures node { result ≡ empty_node self.old.key self.old.path nonce }
        ensures state { self.new ≡ record (self.old) { nonce = nonce } }
    {
        self.nonce = nonce;
        make_node(&self.key, &self.path, &self.nonce, &self.tree)
    }

    /// Creates a protected file of an empty content under a key, a name and a path.
    ///
    /// The refusals are, in this order: `BadName`; `Memory`; `Host`, where the host failed to say whether the name is there;
    /// `Exists`, where it is; `Words`; `Host`. After the last one the name is absent or an empty file.
    pub fn create<H: Host, R: Words>(
        alloc: Global,
        host: &mut H,
        random: &mut R,
        key: &[u8; 16],
        name: &str,
        path: &str,
    ) -> Result<Session, CreateFault>
        ensures goes { CreateGoes key.now name.now path.now (H.state host.old) (H.state host.new) (R.state random.old) (R.state random.new) result }
        ensures aside { Aside name.now (H.state host.old) (H.state host.new) }
    {
        let Some(path) = named_path(name, path) else {
            return Err(CreateFault::BadName);
        };
        let recovery = Text::joined(alloc, name, ".recovery")?;
        let mut session = prepare(alloc, key, name, path, false)?;
        if host.len(name)?.is_some() {
            return Err(CreateFault::Exists);
        }
        let nonce = draw_nonce(random)?;
        let node = session.seal_empty(nonce);
        place(host, name, session.side_name(), recovery.as_str(), &node)?;
        Ok(session)
    }

    /// Creates a protected file of an empty content beside its name: it stands at the side name until it is published.
    ///
    /// The refusals are, in this order: `BadName`, `Memory`, `Words`, `Host`.
    pub fn create_beside<H: Host, R: Words>(
        alloc: Global,
        host: &mut H,
        random: &mut R,
        key: &[u8; 16],
        name: &str,
        path: &str,
    ) -> Result<Session, BesideFault>
        ensures goes { BesideGoes key.now name.now path.now (H.state host.old) (H.state host.new) (R.state random.old) (R.state random.new) result }
        ensures aside { Aside name.now (H.state host.old) (H.state host.new) }
    {
        let Some(path) = named_path(name, path) else {
            return Err(BesideFault::BadName);
        };
        let mut session = prepare(alloc, key, name, path, true)?;
        let nonce = draw_nonce(random)?;
        let node = session.seal_empty(nonce);
        make_side(host, session.side_name(), &node)?;
        Ok(session)
    }
}
