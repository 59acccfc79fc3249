// The opening of a protected file.
ghost use Rattle.std.specs.Prelude.{◌≡◌, ◌≤◌, ◌↔◌, ◌^◌, IsTrue, IsOk, IfOk, ℕ, List, Ok, None, false, option_map};
ghost use Rattle.pf_io.specs.Counts.{HasCause};
ghost use Rattle.pf_io.specs.Host.{OnDisk};
ghost use Rattle.pf_io.specs.Names.{IsTarget, side_of};
ghost use Rattle.node_layout.specs.Metadata.{IsPath};
ghost use Rattle.pf_io.specs.Unchanged.{KeepsDisk};
ghost use Rattle.node_tree.specs.Fetching.{CountsReads};
ghost use Rattle.node_tree.specs.Reading.{IsOfFile};
ghost use Rattle.pf_session.specs.Opening.{AreGood, Opens, WantsEarly, opening_part};
ghost use Rattle.pf_session.specs.State.{unread};
ghost use Rattle.pf_session.specs.Carries.{OpensOnCarried, OpensOnFirst, OpensNoText, OpensStanding};
ghost use Rattle.pf_session.specs.Aside.{Aside};
ghost use Rattle.pf_session.specs.Keeping.{KeepsEither, OpensEither};

use crate::node_zero::{open_node_zero, read_node_zero};
use crate::open_fault::OpenFault;
use crate::session::Session;
use node_layout::{MetaSecret, PathText};
use node_tree::Tree;
use pf_io::{Host, Memory, Text, is_target};
use std::alloc::Global;

fn are_good(name: &str, path: Option<&str>) -> bool
    ensures { IsTrue result ↔ AreGood name.now (option_map (λ p. p.now) path.entry) }
{
    if !is_target(name) {
        return false;
    }
    match path {
        Some(path) => PathText::new(path).is_some(),
        None => true,
    }
}

// The session of a node 0 that was opened.
fn make(
    alloc: Global,
    key: &[u8; 16],
    name: Text,
    side: Text,
    nonce: [u8; 32],
    secret: MetaSecret,
) -> Result<Session, Memory>
    requires small { secret.size ≤ 2 ^ 32 }
    requires target { IsTarget name }
    requires side { side ≡ side_of name }
    requires path { IsPath secret.path }
    ensures made { IsOk result }
    ensures fields { IfOk result (λ s. s ≡ record { key = key.now; name = name; path = secret.path; nonce = nonce; drawn = None; tree = unread secret; changed = false; broken = false; beside = false }) }
{
    let tree = Tree::from_meta(alloc, &secret)?;
    Ok(Session {
        key: *key,
        name,
        side,
        path: secret.path,
        nonce,
        drawn: None,
        tree,
        changed: false,
        broken: false,
        beside: false,
    })
}

impl Session {
    /// Opens a protected file under a key, and under a path where one is given. At most one read is made.
    ///
    /// The answer is `BadName` where the name is none of a protected file or the path is none that one is stored under,
    /// `NotFound` where no file has the name, `NotProtected` where it does not begin with `GRPFTOOL`, `Damaged` with `Short`
    /// where node 0 is short, `Unbuilt` where an update is pending, `BadVersion` where the version is not 1.0, `Damaged` with
    /// `Tag` or `Text` where node 0 does not open under the key, and `WrongPath` where it is stored under another path than
    /// the given one. `Host` comes where a call of the host failed, and `Memory` is want of memory, before any call.
    pub fn open<H: Host>(
        alloc: Global,
        host: &mut H,
        key: &[u8; 16],
        name: &str,
        path: Option<&str>,
    ) -> Result<Session, OpenFault>
        ensures opens { Opens key.now name.now (option_map (λ p. p.now) path.entry) (H.state host.old) (H.state host.new) result }
        ensures cause { HasCause (H.state host.old).faults (H.state host.new).faults (opening_part result) }
        ensures few { CountsReads 1 (H.state host.old) (H.state host.new) }
        ensures disk { KeepsDisk (H.state host.old) (H.state host.new) }
        ensures keeps { KeepsEither name.now (H.state host.old) (H.state host.new) }
        ensures aside { Aside name.now (H.state host.old) (H.state host.new) }
        ensures carried { IfOk result (λ session. OpensOnCarried session (H.state host.old) (H.state host.new)) }
        ensures unforged { IfOk result (λ session. OpensOnFirst session (H.state host.old) (H.state host.new)) }
        ensures never_text { OpensNoText key.now result (H.state host.old) (H.state host.new) }
        ensures standing { OpensStanding key.now name.now (option_map (λ p. p.now) path.entry) result (H.state host.old) }
        ensures reopens { IfOk result (λ session. OnDisk (H.state host.old) (H.state host.new) (OpensEither session)) }
        ensures of_file { IfOk result (λ session. (file : List ℕ) → IsOfFile file session.tree) }
        ensures early { WantsEarly result (H.state host.old) (H.state host.new) }
    {
        if !are_good(name, path) {
            return Err(OpenFault::BadName);
        }
        let text = Text::copy(alloc, name)?;
        let side = Text::joined(alloc, name, ".new")?;
        let (node, nonce) = read_node_zero(host, name)?;
        let secret = open_node_zero(key, &node, path)?;
        Ok(make(alloc, key, text, side, nonce, secret)?)
    }
}
