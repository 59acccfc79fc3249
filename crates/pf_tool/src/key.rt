// The reading of a key file.
ghost use Rattle.std.specs.Prelude.{◌≡◌, IfOk, IfErr};
ghost use Rattle.pf_io.specs.Host.{KeepsFiles};
ghost use Rattle.pf_io.specs.Unchanged.{KeepsDisk};
ghost use Rattle.pf_tool.specs.World.{World, with_host};
ghost use Rattle.pf_tool.specs.Happened.{Passed};
ghost use Rattle.pf_tool.specs.Outcomes.{Falls};
ghost use Rattle.pf_tool.specs.Keys.{IsKeyOf, KeyRefused, key_events};

use crate::fault::Fault;
use crate::why::Why;
use pf_io::{Host, is_name};

/// Reads the 16 bytes of a key file.
pub(crate) fn read_key<'a, H: Host>(host: &mut H, name: &'a str) -> Result<[u8; 16], Fault<'a>>
    ensures files { KeepsFiles (H.state host.old) (H.state host.new) }
    ensures disk { KeepsDisk (H.state host.old) (H.state host.new) }
    ensures key { IfOk result (IsKeyOf name.now) }
    ensures read { IfOk result (λ user. (world : World) → Passed (key_events name.now user) (with_host world (H.state host.old)) (with_host world (H.state host.new))) }
    ensures refused { IfErr result (λ fault. (world : World) → Falls (KeyRefused name.now) (λ _ _. KeepsDisk) fault (with_host world (H.state host.old)) (with_host world (H.state host.new))) }
{
    if !is_name(name) {
        return Err(Fault::Refused(Why::BadName));
    }
    let Some(length) = host.len(name)? else {
        return Err(Fault::Refused(Why::NotFound(name)));
    };
    if length != 16 {
        return Err(Fault::Refused(Why::KeyFile(length)));
    }
    let mut user = [0; 16];
    let given = host.read_at(name, 0, &mut user)?;
    if given < 16 {
        return Err(Fault::Refused(Why::KeyFile(given as u64)));
    }
    Ok(user)
}
