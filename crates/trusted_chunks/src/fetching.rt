// Chunks that are kept, and the fetching of those that are not.
ghost use Rattle.std.specs.Prelude.{◌≡◌, ◌≢◌, ◌<◌, ◌≤◌, ◌+◌, ◌*◌, ◌^◌, [], ◌∷◌, All, length, map, is_none, IfOk};
ghost use Rattle.std.specs.List.{range_with_len};
ghost use Rattle.lru.specs.LruCache.{lru_cache};
ghost use Rattle.pf_io.specs.Counts.{HasCause};
ghost use Rattle.pf_io.specs.Unchanged.{KeepsDisk};
ghost use Rattle.trusted_chunks.specs.Kept.{used, missing_of};
ghost use Rattle.trusted_chunks.specs.Reading.{host_part, Fetches};
ghost use Rattle.trusted_chunks.specs.Fetching.{hash_in, ChunkEnds};

use crate::fault::ChunkFault;
use crate::slices::{CHUNK, has_sum};
use arrayvec::ArrayVec;
use lru::LruCache;
use pf_io::{Bytes, Host};
use std::alloc::Global;

/// Brings those of `count` chunks from `first` on that are kept to the front, in turn, and answers the others.
pub(crate) fn use_kept(kept: &mut LruCache<u32, Bytes>, first: u32, count: u32) -> ArrayVec<u32, 3>
    requires few { count ≤ 3 }
    requires small { first + count ≤ 2 ^ 20 }
    ensures used { kept.new ≡ lru_cache (used (range_with_len first count) kept.old.entries) kept.old.cap }
    ensures missing { result.items ≡ missing_of kept.old.entries (range_with_len first count) }
{
    let mut missing = ArrayVec::new();
    for chunk in first..first + count {
        if !kept.promote(&chunk) {
            missing.push(chunk);
        }
    }
    missing
}

// Asks the host for a chunk, which is to have this sum.
fn fetch<H: Host>(
    alloc: Global,
    host: &mut H,
    name: &str,
    chunk: u32,
    hash: &[u8; 32],
) -> Result<Bytes, ChunkFault>
    ensures cause { HasCause (H.state host.old).faults (H.state host.new).faults (host_part result) }
    ensures disk { KeepsDisk (H.state host.old) (H.state host.new) }
    ensures ends { ChunkEnds result name.now chunk hash.now (H.state host.old) (H.state host.new) }
{
    let mut slice = Vec::new(alloc);
    slice.resize(CHUNK, 0)?;
    let n = host.read_at(name, CHUNK as u64 * chunk as u64, slice.as_mut_slice())?;
    slice.truncate(n);
    if !has_sum(slice.as_slice(), hash) {
        return Err(ChunkFault::Damaged { chunk });
    }
    Ok(slice.into())
}

// Fetches a chunk and keeps it in front of the others.
fn fetch_one<H: Host>(
    alloc: Global,
    host: &mut H,
    name: &str,
    hashes: &[[u8; 32]],
    chunk: u32,
    kept: &mut LruCache<u32, Bytes>,
) -> Result<(), ChunkFault>
    requires known { chunk < length hashes.now }
    requires room { kept.old.cap ≡ 4 }
    ensures cause { HasCause (H.state host.old).faults (H.state host.new).faults (host_part result) }
    ensures disk { KeepsDisk (H.state host.old) (H.state host.new) }
    ensures fetches { Fetches result name.now (hash_in hashes.now) (chunk ∷ []) kept.old.entries kept.new.entries (H.state host.old) (H.state host.new) }
    ensures cap { kept.new.cap ≡ 4 }
{
    let bytes = fetch(alloc, host, name, chunk, &hashes[chunk as usize])?;
    kept.put(chunk, bytes)?;
    Ok(())
}

/// Fetches some chunks in turn and keeps each in front of the others.
pub(crate) fn fetch_all<H: Host>(
    alloc: Global,
    host: &mut H,
    name: &str,
    hashes: &[[u8; 32]],
    chunks: &[u32],
    kept: &mut LruCache<u32, Bytes>,
) -> Result<(), ChunkFault>
    requires known { All (λ chunk. chunk < length hashes.now) chunks.now }
    requires room { kept.old.cap ≡ 4 }
    ensures cause { HasCause (H.state host.old).faults (H.state host.new).faults (host_part result) }
    ensures disk { KeepsDisk (H.state host.old) (H.state host.new) }
    ensures fetches { Fetches result name.now (hash_in hashes.now) chunks.now kept.old.entries kept.new.entries (H.state host.old) (H.state host.new) }
    ensures cap { kept.new.cap ≡ 4 }
{
    for chunk in chunks {
        fetch_one(alloc, host, name, hashes, *chunk, kept)?;
    }
    Ok(())
}
