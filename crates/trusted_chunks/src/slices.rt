// A file that is taken whole, slice by slice, and summed; its bytes are not kept.
ghost use Rattle.std.specs.Prelude.{◌≡◌, ◌++◌, ◌^◌, ◌↔◌, ◌≤◌, length, OnOk, IfOk, IfErr, IsTrue};
ghost use Rattle.sha2.specs.Sha256.{sha256};
ghost use Rattle.pf_io.specs.Counts.{HasCause};
ghost use Rattle.pf_io.specs.Unchanged.{KeepsDisk};
ghost use Rattle.trusted_chunks.specs.Chunks.{sums_of};
ghost use Rattle.trusted_chunks.specs.Opening.{host_part};
ghost use Rattle.trusted_chunks.specs.Taking.{Hashes, SliceEnds, Takes};

use crate::fault::TrustFault;
use pf_io::Host;
use sha2::{Digest, Sha256};
use std::alloc::Global;

/// How many bytes a chunk has, but for the last of a file, and how many a slice is asked to have.
pub(crate) const CHUNK: usize = 16384;

// The most bytes that a file may have.
const MOST_BYTES: u64 = 1 << 32;

/// What was taken of a file: its length, the sum of each of its chunks, and the sum of all.
#[derive(Drop)]
pub(crate) struct Taken {
    pub len: u64,
    pub hashes: Vec<[u8; 32]>,
    pub sum: [u8; 32],
}

/// Whether the two sums are one.
pub(crate) fn is_sum(found: &[u8; 32], sum: &[u8; 32]) -> bool
    ensures { IsTrue result ↔ (found.now ≡ sum.now) }
{
    found.as_slice() == sum.as_slice()
}

/// Whether the bytes have this sum.
pub(crate) fn has_sum(bytes: &[u8], sum: &[u8; 32]) -> bool
    ensures { IsTrue result ↔ (sha256 bytes.now ≡ sum.now) }
{
    is_sum(&Sha256::digest(bytes), sum)
}

// Adds a slice to the sums, where it is not empty.
fn add_slice(
    slice: &[u8],
    hashes: &mut Vec<[u8; 32]>,
    hasher: &mut Sha256,
) -> Result<(), TrustFault>
    requires { length slice.now ≤ 16384 }
    ensures hashes { OnOk result (hashes.new.items ≡ hashes.old.items ++ sums_of slice.now) }
    ensures hasher { OnOk result (Hashes hasher.old slice.now hasher.new) }
    ensures memory { IfErr result (λ fault. fault ≡ TrustFault.Memory) }
{
    hasher.update(slice);
    if !slice.is_empty() {
        hashes.push(Sha256::digest(slice))?;
    }
    Ok(())
}

// Takes the slice at a place: it is asked of the host and added to the sums.
fn take_slice<H: Host>(
    host: &mut H,
    name: &str,
    at: u64,
    buffer: &mut [u8; CHUNK],
    hashes: &mut Vec<[u8; 32]>,
    hasher: &mut Sha256,
) -> Result<usize, TrustFault>
    requires { at ≤ 2 ^ 32 }
    ensures cause { HasCause (H.state host.old).faults (H.state host.new).faults (host_part result) }
    ensures disk { KeepsDisk (H.state host.old) (H.state host.new) }
    ensures ends { SliceEnds result name.now at hashes.old.items hashes.new.items hasher.old hasher.new (H.state host.old) (H.state host.new) }
    ensures short { IfOk result (λ n. n ≤ 16384) }
{
    let n = host.read_at(name, at, buffer)?;
    if at + n as u64 > MOST_BYTES {
        return Err(TrustFault::TooLarge);
    }
    add_slice(&buffer[..n], hashes, hasher)?;
    Ok(n)
}

/// Takes a file that is there: slices in turn, up to the first that is no whole one. Each chunk is summed once, and the
/// whole once.
pub(crate) fn take_slices<H: Host>(
    alloc: Global,
    host: &mut H,
    name: &str,
) -> Result<Taken, TrustFault>
    ensures cause { HasCause (H.state host.old).faults (H.state host.new).faults (host_part result) }
    ensures disk { KeepsDisk (H.state host.old) (H.state host.new) }
    ensures takes { Takes result name.now (H.state host.old) (H.state host.new) }
{
    let mut buffer = [0; CHUNK];
    let mut hashes = Vec::new(alloc);
    let mut hasher = Sha256::new();
    let mut len = 0;
    loop {
        let n = take_slice(host, name, len, &mut buffer, &mut hashes, &mut hasher)?;
        len += n as u64;
        if n < CHUNK {
            return Ok(Taken {
                len,
                hashes,
                sum: hasher.finalize(),
            });
        }
    }
}
