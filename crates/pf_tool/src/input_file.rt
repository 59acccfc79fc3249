// The reading of a plain input file, whole.
ghost use Rattle.std.specs.Prelude.{◌≤◌, ℕ, IfOk, IfErr, length};
ghost use Rattle.pf_io.specs.Host.{KeepsFiles};
ghost use Rattle.pf_io.specs.Names.{IsName};
ghost use Rattle.pf_io.specs.Unchanged.{KeepsDisk};
ghost use Rattle.pf_tool.specs.World.{World, with_host};
ghost use Rattle.pf_tool.specs.InputFiles.{InputLeads, InputRead};
ghost use Rattle.pf_tool.specs.InputSlices.{SliceAdded, SliceFails, SlicesLead, SlicesRead};
ghost use Rattle.pf_tool.specs.Outcomes.{Falls};

use crate::fault::Fault;
use crate::why::Why;
use pf_io::{Bytes, Host, is_name};
use std::alloc::Global;

// How many bytes a slice is asked to have.
const SLICE: usize = 16_384;

// The most bytes of an input.
const MOST_INPUT: usize = 4_194_304;

// Reads the slice of a file that begins where the bytes end, behind them, and answers how many bytes it has. The room is made
// before the host is asked.
fn add_slice<H: Host>(
    host: &mut H,
    name: &str,
    bytes: &mut Vec<u8>,
) -> Result<usize, Fault<'static>>
    requires { length bytes.old.items ≤ 4194304 }
    ensures files { KeepsFiles (H.state host.old) (H.state host.new) }
    ensures disk { KeepsDisk (H.state host.old) (H.state host.new) }
    ensures added { IfOk result (λ given. SliceAdded name.now given bytes.old.items bytes.new.items (H.state host.old) (H.state host.new)) }
    ensures fails { IfErr result (λ fault. SliceFails name.now (length bytes.old.items) fault (H.state host.old) (H.state host.new)) }
{
    let at = bytes.len();
    bytes.resize(at + SLICE, 0)?;
    let given = host.read_at(name, at as u64, &mut bytes[at..])?;
    bytes.truncate(at + given);
    Ok(given)
}

// Reads the slices of a file that is there, up to the first that is no whole one.
fn read_slices<H: Host>(alloc: Global, host: &mut H, name: &str) -> Result<Bytes, Fault<'static>>
    requires { IsName name.now }
    ensures files { KeepsFiles (H.state host.old) (H.state host.new) }
    ensures disk { KeepsDisk (H.state host.old) (H.state host.new) }
    ensures read { IfOk result (λ text. SlicesRead name.now text (H.state host.old) (H.state host.new)) }
    ensures refused { IfErr result (λ fault. (size : ℕ) (world : World) → Falls (SlicesLead name.now size) (λ _ _. KeepsDisk) fault (with_host world (H.state host.old)) (with_host world (H.state host.new))) }
{
    let mut bytes = Vec::new(alloc);
    loop {
        let given = add_slice(host, name, &mut bytes)?;
        if bytes.len() > MOST_INPUT {
            return Err(Fault::Refused(Why::TooLarge));
        }
        if given < SLICE {
            return Ok(Bytes::from(bytes));
        }
    }
}

/// Reads the plain file `name`, of at most 4,194,304 bytes: its length, and then slices of 16,384 bytes, each from where the
/// one before ended, up to the first that is shorter.
///
/// A `name` that is none is refused before anything is asked; one without a file is not found; and a file is too large exactly
/// where more bytes were given. `Host` comes where a call of the host failed, and `Memory` is want of memory, before a slice.
pub(crate) fn read_input<'a, H: Host>(
    alloc: Global,
    host: &mut H,
    name: &'a str,
) -> Result<Bytes, Fault<'a>>
    ensures files { KeepsFiles (H.state host.old) (H.state host.new) }
    ensures disk { KeepsDisk (H.state host.old) (H.state host.new) }
    ensures small { IfOk result (λ text. length text ≤ 4194304) }
    ensures read { IfOk result (λ text. (world : World) → InputRead name.now text (with_host world (H.state host.old)) (with_host world (H.state host.new))) }
    ensures refused { IfErr result (λ fault. (world : World) → Falls (InputLeads name.now) (λ _ _. KeepsDisk) fault (with_host world (H.state host.old)) (with_host world (H.state host.new))) }
{
    if !is_name(name) {
        return Err(Fault::Refused(Why::BadName));
    }
    let Some(_) = host.len(name)? else {
        return Err(Fault::Refused(Why::NotFound(name)));
    };
    read_slices(alloc, host, name)
}
