// The content of a protected file, put out in pieces.
ghost use Rattle.std.specs.Prelude.{◌≡◌, List, ℕ, length, false};
ghost use Rattle.node_layout.specs.declared.metadata.MetaSecret.{MetaSecret};
ghost use Rattle.pf_io.specs.Host.{KeepsFiles};
ghost use Rattle.pf_io.specs.Unchanged.{KeepsDisk};
ghost use Rattle.pf_session.specs.State.{unread};
ghost use Rattle.pf_tool.specs.World.{World, with_host, with_out};
ghost use Rattle.pf_tool.specs.Outcomes.{ComesOut};
ghost use Rattle.pf_tool.specs.Unsealing.{tree_fault};
ghost use Rattle.pf_tool.specs.Decrypting.{PiecesLead};

use crate::fault::Fault;
use node_tree::TreeFault;
use pf_io::{Host, Sink};
use pf_session::Session;

// The most bytes of a piece.
const PIECE: usize = 32_768;

impl From<TreeFault> for Fault<'_> {
    ghost from_gives = { λ fault turned. turned ≡ tree_fault fault };

    fn from(fault: TreeFault) -> Self {
        match fault {
            TreeFault::Damaged(damage) => Fault::Damaged(damage),
            TreeFault::Host => Fault::Host,
            TreeFault::Memory => Fault::Memory,
        }
    }
}

/// Puts out the content of an opened file. A piece is put out once all its nodes have opened; a node is read and opened once.
pub(crate) fn write_content<H: Host, K: Sink>(
    host: &mut H,
    session: &mut Session,
    out: &mut K,
) -> Result<(), Fault<'static>>
    requires named { session.old.beside ≡ false }
    requires whole { session.old.broken ≡ false }
    ensures files { KeepsFiles (H.state host.old) (H.state host.new) }
    ensures disk { KeepsDisk (H.state host.old) (H.state host.new) }
    ensures ends { (secret : MetaSecret) (node : List ℕ) (world : World) → session.old.tree ≡ unread secret → length node ≡ 4096 → ComesOut (PiecesLead session.old.name node secret) (λ _ _. KeepsDisk) result
        (with_out (with_host world (H.state host.old)) (K.state out.old)) (with_out (with_host world (H.state host.new)) (K.state out.new)) }
{
    let size = session.size();
    let mut piece = [0; PIECE];
    let mut at = 0;
    while at < size {
        let count = session.read(host, at, &mut piece)?;
        out.write(&piece[..count])?;
        at += PIECE as u64;
    }
    Ok(())
}
