// A file of the host that is read against its sum.
ghost use Rattle.std.specs.Prelude.{◌≡◌, ◌-◌, ◌≤◌, min, length, IfOk, OnErr};
ghost use Rattle.std.specs.NonZero.{non_zero_usize_get};
ghost use Rattle.pf_io.specs.Counts.{HasCause};
ghost use Rattle.pf_io.specs.Host.{KeepsRest};
ghost use Rattle.pf_io.specs.Unchanged.{KeepsDisk};
ghost use Rattle.trusted_chunks.specs.Opening.{host_part as open_part, Opens, HonestOpen};
ghost use Rattle.trusted_chunks.specs.Reading.{host_part as read_part, Reads, ReadsFew, DamageComes, HeldRead, HonestRead};

use crate::copying::copy_out;
use crate::fault::{ChunkFault, TrustFault};
use crate::fetching::{fetch_all, use_kept};
use crate::slices::{CHUNK, is_sum, take_slices};
use lru::LruCache;
use pf_io::{Bytes, Host, Text};
use std::alloc::Global;
use std::marker::Model;
use std::num::NonZeroUsize;

/// A file of the host whose bytes had the sum that was asked for when it was opened. Of these bytes it keeps the sum of
/// each chunk of 16,384 bytes, and at most four chunks; each chunk is checked again when it is read.
///
/// Contracts see it as a `FileState`.
#[derive(Drop)]
pub struct TrustedFile {
    alloc: Global,
    name: Text,
    len: u64,
    hashes: Vec<[u8; 32]>,
    kept: LruCache<u32, Bytes>,
}

impl Model for TrustedFile {
    ghost use Rattle.std.specs.Prelude.{◌≡◌};
    ghost use Rattle.trusted_chunks.specs.State.{FileState, state_code, IsSound};
    ghost use Rattle.trusted_chunks.specs.Inside.{state_of};

    ghost Value = { FileState };

    ghost coded = { state_code };

    ghost view = { state_of };

    ghost invariant = { λ file. IsSound (state_of file) × (file.kept.cap ≡ 4) };
}

// How many chunks are kept.
fn most_kept() -> NonZeroUsize
    ensures { non_zero_usize_get result ≡ 4 }
{
    match NonZeroUsize::new(4) {
        Some(most) => most,
        None => unreachable!(),
    }
}

// How many bytes of a room can be read from a place on.
fn readable(len: u64, at: u64, room: usize) -> usize
    requires { room ≤ 32768 }
    ensures { result ≡ min room (len - at) }
{
    len.saturating_sub(at).min(room as u64) as usize
}

impl TrustedFile {
    /// Takes the file `name` of the host: the slices of 16,384 bytes that it gives in turn, up to the first that is
    /// shorter. Their sum must be the one that is asked for. Of the bytes it keeps the sums of their chunks alone.
    ///
    /// `NotFound` comes where the host answered no length, `TooLarge` where it gave more than 2^32 bytes, and `WrongSum`
    /// where the bytes have another sum, which is told. `Host` comes where a call of the host failed, and `Memory` is
    /// want of memory.
    pub fn open<H: Host>(
        alloc: Global,
        host: &mut H,
        name: &str,
        sum: &[u8; 32],
    ) -> Result<TrustedFile, TrustFault>
        ensures opens { Opens result name.now sum.now (H.state host.old) (H.state host.new) }
        ensures cause { HasCause (H.state host.old).faults (H.state host.new).faults (open_part result) }
        ensures disk { KeepsDisk (H.state host.old) (H.state host.new) }
        ensures honest { HonestOpen result name.now sum.now (H.state host.old) }
    {
        if host.len(name)?.is_none() {
            return Err(TrustFault::NotFound);
        }
        let own_name = Text::copy(alloc, name)?;
        let kept = LruCache::sparse(alloc, most_kept())?;
        let taken = take_slices(alloc, host, name)?;
        if !is_sum(&taken.sum, sum) {
            return Err(TrustFault::WrongSum { found: taken.sum });
        }
        Ok(TrustedFile {
            alloc,
            name: own_name,
            len: taken.len,
            hashes: taken.hashes,
            kept,
        })
    }

    /// Reads the bytes that were taken at the opening, from the byte at `at` on, as far as `to`, of at most 32,768 bytes,
    /// and the file reach, and answers how many.
    ///
    /// The touched chunks that are kept come to the front first. Each other one is asked of the host by one read with
    /// room for 16,384 bytes and kept, if it has its sum; of more than four kept chunks the one that was used least
    /// recently goes. `Damaged` names the first that has another sum. `Host` comes where a call of the host failed, and
    /// `Memory` is want of memory. After these the chunks that came before stay kept, and the bytes of `to` are as before.
    pub fn read<H: Host>(
        &mut self,
        host: &mut H,
        at: u64,
        to: &mut [u8],
    ) -> Result<usize, ChunkFault>
        requires { length to.old ≤ 32768 }
        ensures reads { Reads result at to.new self.old self.new (H.state host.old) (H.state host.new) }
        ensures rest { IfOk result (λ n. KeepsRest n to.old to.new) }
        ensures unchanged { OnErr result (to.new ≡ to.old) }
        ensures most { length self.new.kept ≤ 4 }
        ensures cause { HasCause (H.state host.old).faults (H.state host.new).faults (read_part result) }
        ensures few { ReadsFew at (length to.old) self.old (H.state host.old) (H.state host.new) }
        ensures disk { KeepsDisk (H.state host.old) (H.state host.new) }
        ensures damage { DamageComes result at (length to.old) self.old (H.state host.old) (H.state host.new) }
        ensures held { HeldRead result at to.new self.old self.new (H.state host.old) (H.state host.new) }
        ensures honest { HonestRead result at to.new self.old self.new (H.state host.old) }
    {
        let room = readable(self.len, at, to.len());
        if room == 0 {
            return Ok(0);
        }
        let first = at / CHUNK as u64;
        let count = (at + room as u64 - 1) / CHUNK as u64 + 1 - first;
        let (first, count) = (first as u32, count as u32);
        let missing = use_kept(&mut self.kept, first, count);
        fetch_all(
            self.alloc,
            host,
            self.name.as_str(),
            &self.hashes,
            &missing,
            &mut self.kept,
        )?;
        let skip = (at % CHUNK as u64) as usize;
        Ok(copy_out(&self.kept, first, count, skip, &mut to[..room]))
    }

    /// How many bytes the file has.
    pub fn len(&self) -> u64
        ensures { result ≡ self.now.size }
    {
        self.len
    }
}

#[cfg(test)]
mod tests;
