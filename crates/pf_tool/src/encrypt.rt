// The command `encrypt`.
ghost use Rattle.std.specs.Prelude.{◌≡◌, ◌++◌, ◌↔◌, IsTrue, List, ℕ, false, OnOk, IfErr};
ghost use Rattle.pf_io.specs.Names.{IsTarget};
ghost use Rattle.pf_tool.specs.World.{World, with_host, with_random};
ghost use Rattle.pf_tool.specs.SealingInput.{InputWritten, InputStops, SealsInput};
ghost use Rattle.pf_tool.specs.Encrypting.{IsInput, EncryptGoes};

use crate::fault::Fault;
use crate::key::read_key;
use crate::session_faults::piece_fault;
use crate::why::Why;
use crate::words::Encrypt;
use pf_io::{Host, Words, is_name, is_target};
use pf_session::Session;
use std::alloc::Global;

// The most bytes of a piece.
const PIECE: usize = 32_768;

// Whether the name is another one with an ending.
fn is_beside(name: &str, other: &str, ending: &str) -> bool
    ensures { IsTrue result ↔ (name.now ≡ other.now ++ ending.now) }
{
    match name.as_bytes().strip_prefix(other.as_bytes()) {
        Some(rest) => rest == ending.as_bytes(),
        None => false,
    }
}

// Whether a plain file can be read while the output is made.
fn is_input(input: &str, output: &str) -> bool
    ensures { IsTrue result ↔ IsInput input.now output.now }
{
    is_name(input)
        && !is_beside(input, output, ".new")
        && !is_beside(input, output, ".new.recovery")
}

// Writes the pieces of the input into the session, up to the first that is given short.
fn write_input<H: Host, R: Words>(
    host: &mut H,
    random: &mut R,
    input: &str,
    session: &mut Session,
) -> Result<(), Fault<'static>>
    requires whole { session.old.broken ≡ false }
    requires empty { session.old.tree.size ≡ 0 }
    ensures written { OnOk result ((content : List ℕ) × InputWritten input.now content session.old session.new (H.state host.old) (H.state host.new) (R.state random.old) (R.state random.new)) }
    ensures stops { IfErr result (λ fault. InputStops input.now session.old fault (H.state host.old) (H.state host.new) (R.state random.old) (R.state random.new)) }
{
    let mut piece = [0; PIECE];
    loop {
        let at = session.size();
        let given = host.read_at(input, at, &mut piece)?;
        if let Err(fault) = session.write(host, random, at, &piece[..given]) {
            return Err(piece_fault(fault));
        }
        if given < PIECE {
            return Ok(());
        }
    }
}

// Makes the protected file of the input beside its name, and gives it the name.
fn seal_input<H: Host, R: Words>(
    alloc: Global,
    host: &mut H,
    random: &mut R,
    user: &[u8; 16],
    input: &str,
    output: &str,
) -> Result<(), Fault<'static>>
    requires { IsTarget output.now }
    ensures { SealsInput user.now input.now output.now result (H.state host.old) (H.state host.new) (R.state random.old) (R.state random.new) }
{
    let mut session = Session::create_beside(alloc, host, random, user, output, output)?;
    write_input(host, random, input, &mut session)?;
    session.publish(host, random)?;
    Ok(())
}

/// Makes a protected file of a plain one, by a side file that gets the output's name once it is whole.
pub(crate) fn encrypt<'a, H: Host, R: Words>(
    alloc: Global,
    host: &mut H,
    random: &mut R,
    command: &Encrypt<'a>,
) -> Result<(), Fault<'a>>
    ensures { (world : World) → EncryptGoes command.now.key.now command.now.input.now command.now.output.now result
        (with_random (with_host world (H.state host.old)) (R.state random.old)) (with_random (with_host world (H.state host.new)) (R.state random.new)) }
{
    let user = read_key(host, command.key)?;
    if !is_target(command.output) || !is_input(command.input, command.output) {
        return Err(Fault::Refused(Why::BadName));
    }
    let Some(_) = host.len(command.input)? else {
        return Err(Fault::Refused(Why::NotFound(command.input)));
    };
    seal_input(alloc, host, random, &user, command.input, command.output)
}
