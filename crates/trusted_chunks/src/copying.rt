// The bytes of chunks that are kept, copied out.
ghost use Rattle.std.specs.Prelude.{◌≡◌, ◌+◌, ◌-◌, ◌^◌, ◌≤◌, ◌++◌, ℕ, min, length, take, drop, IsSome, Some, Contains};
ghost use Rattle.std.specs.List.{range_with_len};
ghost use Rattle.trusted_chunks.specs.Kept.{kept_at, joined};
ghost use Rattle.pf_io.specs.Host.{KeepsRest};

use lru::LruCache;
use pf_io::Bytes;

// Copies bytes from a place on, to a place on, as far as either reaches, and answers how many.
fn copy_piece(from: &[u8], place: usize, to: &mut [u8], done: usize) -> usize
    requires place { place ≤ length from.now }
    requires done { done ≤ length to.old }
    ensures count { result ≡ min (length to.old - done) (length from.now - place) }
    ensures front { take (done + result) to.new ≡ take done to.old ++ take result (drop place from.now) }
    ensures rest { KeepsRest (done + result) to.old to.new }
{
    let count = (to.len() - done).min(from.len() - place);
    to[done..done + count].copy_from_slice(&from[place..place + count]);
    count
}

// A chunk that is kept.
fn chunk_of(kept: &LruCache<u32, Bytes>, chunk: u32) -> &[u8]
    requires { IsSome (kept_at kept.now.entries chunk) }
    ensures { kept_at kept.now.entries chunk ≡ Some result.now }
{
    match kept.peek(&chunk) {
        Some(bytes) => bytes.as_slice(),
        None => unreachable!(),
    }
}

/// Copies the bytes of `count` chunks from `first` on, without as many as are to be skipped in front, and answers how
/// many were copied.
pub(crate) fn copy_out(
    kept: &LruCache<u32, Bytes>,
    first: u32,
    count: u32,
    skip: usize,
    to: &mut [u8],
) -> usize
    requires few { first + count ≤ 2 ^ 20 }
    requires all_kept { (c : ℕ) → Contains (range_with_len first count) c → IsSome (kept_at kept.now.entries c) }
    ensures count { result ≡ min (length to.old) (length (joined kept.now.entries (range_with_len first count)) - skip) }
    ensures bytes { take result to.new ≡ take result (drop skip (joined kept.now.entries (range_with_len first count))) }
    ensures rest { KeepsRest result to.old to.new }
{
    let mut done = 0;
    let mut left = skip;
    for chunk in first..first + count {
        let bytes = chunk_of(kept, chunk);
        let start = left.min(bytes.len());
        done += copy_piece(bytes, start, to, done);
        left -= start;
    }
    done
}
