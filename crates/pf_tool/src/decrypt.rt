// The command `decrypt`.
ghost use Rattle.std.specs.Prelude.{IfOk, IfErr};
ghost use Rattle.pf_io.specs.Host.{KeepsFiles};
ghost use Rattle.pf_io.specs.Unchanged.{KeepsDisk};
ghost use Rattle.pf_tool.specs.World.{World, with_host, with_out};
ghost use Rattle.pf_tool.specs.Outcomes.{Falls, ComesOut};
ghost use Rattle.pf_tool.specs.Decrypting.{Unseals, DecryptLeads};
ghost use Rattle.pf_tool.specs.Unsealing.{InputOpened};

use crate::fault::Fault;
use crate::key::read_key;
use crate::pieces::write_content;
use crate::session_faults::opening_fault;
use crate::words::Decrypt;
use pf_io::{Host, Sink};
use pf_session::Session;
use std::alloc::Global;

// Opens a protected file, whichever path it is stored under.
fn open<'a, H: Host>(
    alloc: Global,
    host: &mut H,
    user: &[u8; 16],
    name: &'a str,
) -> Result<Session, Fault<'a>>
    ensures files { KeepsFiles (H.state host.old) (H.state host.new) }
    ensures disk { KeepsDisk (H.state host.old) (H.state host.new) }
    ensures opened { IfOk result (λ session. InputOpened user.now name.now session (H.state host.old) (H.state host.new)) }
    ensures refused { IfErr result (λ fault. (world : World) → Falls (Unseals user.now name.now) (λ _ _. KeepsDisk) fault (with_host world (H.state host.old)) (with_host world (H.state host.new))) }
{
    match Session::open(alloc, host, user, name, None) {
        Ok(session) => Ok(session),
        Err(fault) => Err(opening_fault(fault, name)),
    }
}

/// Writes the content of the protected file to `out`, in pieces of 32,768 bytes. Where a node is damaged, the pieces before
/// the one that has it were written.
pub(crate) fn decrypt<'a, H: Host, K: Sink>(
    alloc: Global,
    host: &mut H,
    command: &Decrypt<'a>,
    out: &mut K,
) -> Result<(), Fault<'a>>
    ensures { (world : World) → ComesOut (DecryptLeads command.now.key.now command.now.input.now) (λ _ _. KeepsDisk) result
        (with_out (with_host world (H.state host.old)) (K.state out.old)) (with_out (with_host world (H.state host.new)) (K.state out.new)) }
{
    let user = read_key(host, command.key)?;
    let mut session = open(alloc, host, &user, command.input)?;
    write_content(host, &mut session, out)
}
