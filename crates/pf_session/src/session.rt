//! A protected file that is open.
use node_layout::PathText;
use node_tree::Tree;
use pf_io::Text;
use std::marker::Model;

/// A protected file that is open: its key and name, the path and the nonce of its last sealing, the nonce that is drawn
/// for the next one, and its tree.
///
/// Contracts see it as a `SessionState`. Its content is that of its tree, on the sheet that backs it.
#[derive(Drop)]
pub struct Session {
    pub(crate) key: [u8; 16],
    pub(crate) name: Text,
    // The name of the file that is made beside the name.
    pub(crate) side: Text,
    pub(crate) path: PathText,
    pub(crate) nonce: [u8; 32],
    pub(crate) drawn: Option<[u8; 32]>,
    pub(crate) tree: Tree,
    pub(crate) changed: bool,
    pub(crate) broken: bool,
    // Whether the file stands at the side name until it is published.
    pub(crate) beside: bool,
}

impl Model for Session {
    ghost use Rattle.pf_session.specs.State.{SessionState, session_code};

    ghost Value = { SessionState };

    ghost coded = { session_code };

    ghost use Rattle.pf_session.specs.Inside.{state_of, IsWell};

    ghost view = { state_of };

    ghost invariant = { IsWell };
}
