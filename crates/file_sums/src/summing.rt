// The sum of a file of the host.
ghost use Rattle.std.specs.Prelude.{◌^◌, ◌≤◌, IfOk};
ghost use Rattle.pf_io.specs.Counts.{HasCause};
ghost use Rattle.pf_io.specs.Host.{KeepsFiles};
ghost use Rattle.pf_io.specs.Unchanged.{KeepsDisk};
ghost use Rattle.file_sums.specs.Summing.{host_part, IsSummed, IsOfFile};
ghost use Rattle.file_sums.specs.Taking.{SliceEnds, Takes};

use crate::SumFault;
use pf_io::Host;
use sha2::{Digest, Sha256};

// How many bytes a slice is asked to have.
const SLICE: usize = 16384;

// The most bytes that a file may have.
const MOST_BYTES: u64 = 1 << 32;

// Takes the slice at a place: it is asked of the host and hashed.
fn take_slice<H: Host>(
    host: &mut H,
    name: &str,
    at: u64,
    buffer: &mut [u8; SLICE],
    hasher: &mut Sha256,
) -> Result<usize, SumFault>
    requires { at ≤ 2 ^ 32 }
    ensures cause { HasCause (H.state host.old).faults (H.state host.new).faults (host_part result) }
    ensures disk { KeepsDisk (H.state host.old) (H.state host.new) }
    ensures ends { SliceEnds result name.now at hasher.old hasher.new (H.state host.old) (H.state host.new) }
    ensures short { IfOk result (λ n. n ≤ 16384) }
{
    let n = host.read_at(name, at, buffer)?;
    if at + n as u64 > MOST_BYTES {
        return Err(SumFault::TooLarge);
    }
    hasher.update(&buffer[..n]);
    Ok(n)
}

// The sum of a file that is there: of slices in turn, up to the first that is no whole one.
fn sum_slices<H: Host>(host: &mut H, name: &str) -> Result<[u8; 32], SumFault>
    ensures cause { HasCause (H.state host.old).faults (H.state host.new).faults (host_part result) }
    ensures disk { KeepsDisk (H.state host.old) (H.state host.new) }
    ensures takes { Takes result name.now (H.state host.old) (H.state host.new) }
{
    let mut buffer = [0; SLICE];
    let mut hasher = Sha256::new();
    let mut len = 0;
    loop {
        let n = take_slice(host, name, len, &mut buffer, &mut hasher)?;
        len += n as u64;
        if n < SLICE {
            return Ok(hasher.finalize());
        }
    }
}

/// The SHA-256 of the file `name` of the host: of the slices of 16,384 bytes that it gives in turn, up to the first that
/// is shorter. Nothing of the file is kept, and no memory is taken.
///
/// `NotFound` comes where the host answered no length, and `TooLarge` where it gave more than 2^32 bytes. `Host` comes
/// where a call of the host failed. Nothing is asked after one of them.
pub fn sum<H: Host>(host: &mut H, name: &str) -> Result<[u8; 32], SumFault>
    ensures summed { IsSummed result name.now (H.state host.old) (H.state host.new) }
    ensures honest { IsOfFile result name.now (H.state host.old) }
    ensures cause { HasCause (H.state host.old).faults (H.state host.new).faults (host_part result) }
    ensures disk { KeepsDisk (H.state host.old) (H.state host.new) }
    ensures files { KeepsFiles (H.state host.old) (H.state host.new) }
{
    match host.len(name)? {
        Some(_) => sum_slices(host, name),
        None => Err(SumFault::NotFound),
    }
}
