//! Files that are summed by SHA-256, or read whole as trusted files.
ghost use Rattle.std.specs.Prelude.{◌≡◌, ◌*◌, ◌≤◌, length, IfOk, option_map};
ghost use Rattle.std.specs.List.{sum};
ghost use Rattle.sha2.specs.Sha256.{sha256};
ghost use Rattle.pf_io.specs.Counts.{HasCause};
ghost use Rattle.pf_io.specs.Host.{OnHonest, contents};
ghost use Rattle.pf_io.specs.Unchanged.{KeepsDisk};
ghost use Rattle.trusted_chunks.specs.Chunks.{chunk_count};
ghost use Rattle.trusted_chunks.specs.Reading.{host_part as read_part};
ghost use Rattle.pf_io.specs.Slices.{CountsSlices};
ghost use Rattle.trusted_chunks.specs.State.{Holds};
ghost use Rattle.chunk_bench.specs.Files.{host_part, Adds, ReadsFile};

use crate::fault::FileFault;
use pf_io::{Host, HostFault};
use sha2::{Digest, Sha256};
use std::alloc::Global;
use trusted_chunks::{ChunkFault, TrustedFile};

// How many bytes are asked for and summed at once.
const SLICE: usize = 16_384;

// How many bytes of a trusted file are read at once.
const PIECE: usize = 32_768;

/// The SHA-256 sum of a file, which is taken in slices; `None` where it is absent. An honest host is asked for no
/// more slices than the file has chunks.
pub fn hash_file<H: Host>(host: &mut H, name: &str) -> Result<Option<[u8; 32]>, HostFault>
    ensures cause { HasCause (H.state host.old).faults (H.state host.new).faults result }
    ensures disk { KeepsDisk (H.state host.old) (H.state host.new) }
    ensures sum { IfOk result (λ found. OnHonest (H.state host.old) (λ files. found ≡ option_map sha256 (files name.now))) }
    ensures once { OnHonest (H.state host.old) (λ files. CountsSlices (chunk_count (length (contents (files name.now)))) (H.state host.old) (H.state host.new)) }
{
    let Some(len) = host.len(name)? else {
        return Ok(None);
    };
    let mut buffer = [0; SLICE];
    let mut hasher = Sha256::new();
    for slice in 0..len.div_ceil(SLICE as u64) {
        let n = host.read_at(name, SLICE as u64 * slice, &mut buffer)?;
        hasher.update(&buffer[..n]);
    }
    Ok(Some(hasher.finalize()))
}

// The bytes of a piece, added up.
fn add(piece: &[u8]) -> u64
    requires { length piece.now ≤ 32768 }
    ensures sum { result ≡ sum piece.now }
    ensures small { result ≤ 255 * 32768 }
{
    let mut total = 0;
    for byte in piece {
        total += *byte as u64;
    }
    total
}

// The bytes of a trusted file, which is read in order, added up. The host is asked for each chunk at most once.
fn add_file<H: Host>(host: &mut H, file: &mut TrustedFile) -> Result<u128, ChunkFault>
    ensures cause { HasCause (H.state host.old).faults (H.state host.new).faults (read_part result) }
    ensures disk { KeepsDisk (H.state host.old) (H.state host.new) }
    ensures adds { OnHonest (H.state host.old) (λ files. Holds file.old (contents (files file.old.name)) → Adds result (contents (files file.old.name))) }
    ensures once { CountsSlices (chunk_count file.old.size) (H.state host.old) (H.state host.new) }
{
    let mut buffer = [0; PIECE];
    let mut total = 0;
    for piece in 0..file.len().div_ceil(PIECE as u64) {
        let n = file.read(host, PIECE as u64 * piece, &mut buffer)?;
        total += add(&buffer[..n]) as u128;
    }
    Ok(total)
}

/// Opens a file under its sum as a trusted file, reads it in order, and answers its bytes added up.
pub fn read_file<H: Host>(
    alloc: Global,
    host: &mut H,
    name: &str,
    sum: &[u8; 32],
) -> Result<u128, FileFault>
    ensures cause { HasCause (H.state host.old).faults (H.state host.new).faults (host_part result) }
    ensures disk { KeepsDisk (H.state host.old) (H.state host.new) }
    ensures reads { OnHonest (H.state host.old) (λ files. ReadsFile result sum.now (files name.now)) }
{
    let mut file = TrustedFile::open(alloc, host, name, sum)?;
    Ok(add_file(host, &mut file)?)
}
