//! Changes of a session's content.
ghost use Rattle.std.specs.Prelude.{◌≡◌, ◌+◌, ◌^◌, ◌≤◌, List, ℕ, length, false, OnOk, IfErr};
ghost use Rattle.node_tree.specs.Applying.{Step, Write, Size, from_of, to_of};
ghost use Rattle.node_tree.specs.Marks.{MayChange};
ghost use Rattle.pf_session.specs.Aside.{Aside};
ghost use Rattle.pf_session.specs.Flushing.{KeepsName};
ghost use Rattle.pf_session.specs.Changing.{IsRoomy, RoomGoes, Marked, StepGoes, WriteRefused, WriteGoes, SizeGoes};

use crate::fault::{FlushFault, SizeFault, WriteFault, Written};
use crate::file_name::file_name;
use crate::session::Session;
use node_tree::{TreeFault, resized_range};
use pf_io::{Host, Words};

// The most bytes of one change, of a content, and the most dirty nodes.
const LONGEST: u64 = 32_768;

const LARGEST: u64 = 1 << 32;

const MOST_DIRTY: usize = 48;

// Refuses a write into a content of this size by the first rule against it.
fn check_write(at: u64, from: &[u8], size: u64) -> Result<(), WriteFault>
    ensures refused { IfErr result (WriteRefused at (length from.now) size) }
    ensures few { OnOk result (length from.now ≤ 32768) }
    ensures small { OnOk result (at + length from.now ≤ 2 ^ 32) }
    ensures within { OnOk result (at ≤ size) }
{
    let count = from.len() as u64;
    if count > LONGEST {
        return Err(WriteFault::TooLong);
    }
    if at > LARGEST || count > LARGEST - at {
        return Err(WriteFault::TooLarge);
    }
    if at > size {
        return Err(WriteFault::PastEnd { size });
    }
    Ok(())
}

impl Session {
    // Flushes where a change of the bytes from `at` up to `end` would leave too many nodes dirty, and says whether it did.
    fn make_room<H: Host, R: Words>(
        &mut self,
        host: &mut H,
        random: &mut R,
        at: u64,
        end: u64,
    ) -> Result<bool, FlushFault>
        requires whole { self.old.broken ≡ false }
        requires order { at ≤ end }
        requires near { end ≤ at + 32768 }
        requires small { end ≤ 2 ^ 32 }
        ensures goes { (step : Step) → from_of step self.old.tree.size ≡ at → to_of step self.old.tree.size ≡ end → RoomGoes result step self.old self.new (H.state host.old) (H.state host.new) (R.state random.old) (R.state random.new) }
        ensures size { OnOk result (self.new.tree.size ≡ self.old.tree.size) }
        ensures roomy { OnOk result (MayChange self.new.tree.dirty at end) }
        ensures aside { Aside self.old.name (H.state host.old) (H.state host.new) }
        ensures beside { KeepsName self.old (H.state host.old) (H.state host.new) }
    {
        if self.tree.changed_count(at, end) <= MOST_DIRTY {
            return Ok(false);
        }
        self.flush(host, random)?;
        prove!(self.tree.changed_count(at, end) <= MOST_DIRTY);
        Ok(true)
    }

    // Writes bytes, for which there is room.
    fn put<H: Host>(&mut self, host: &mut H, at: u64, from: &[u8]) -> Result<(), TreeFault>
        requires few { length from.now ≤ 32768 }
        requires no_gap { at ≤ self.old.tree.size }
        requires small { at + length from.now ≤ 2 ^ 32 }
        requires roomy { IsRoomy (Write at from.now) self.old.tree }
        ensures { StepGoes result (Write at from.now) self.old self.new (H.state host.old) (H.state host.new) }
    {
        let name = file_name(self.beside, &self.name, &self.side);
        let ended = self.tree.write(host, name, at, from);
        self.mark(ended)
    }

    // Makes the content longer or shorter, for which there is room.
    fn resize<H: Host>(&mut self, host: &mut H, size: u64) -> Result<(), TreeFault>
        requires small { size ≤ 2 ^ 32 }
        requires near { size ≤ self.old.tree.size + 32768 }
        requires roomy { IsRoomy (Size size) self.old.tree }
        ensures { StepGoes result (Size size) self.old self.new (H.state host.old) (H.state host.new) }
    {
        let name = file_name(self.beside, &self.name, &self.side);
        let ended = self.tree.resize(host, name, size);
        self.mark(ended)
    }

    // Marks the session as changed, or as broken.
    fn mark(&mut self, ended: Result<(), TreeFault>) -> Result<(), TreeFault>
        ensures same { result ≡ ended }
        ensures marked { Marked ended self.old self.new }
    {
        if let Err(fault) = ended {
            self.broken = true;
            return Err(fault);
        }
        self.changed = true;
        Ok(())
    }

    /// Writes at most 32,768 bytes into the content, from the byte at `at` on, which is at most its length, up to at most
    /// 2^32. Where more than 48 nodes would be dirty, the session is flushed first. An empty write changes nothing.
    ///
    /// The refusals come in this order. `TooLong` comes where the bytes are more than 32,768, `TooLarge` where their end is
    /// above 2^32, and `PastEnd` where they begin behind the content's end: no call is made then, and the session is as
    /// before. A flush that is needed first may fail with `Words`, where a random word was wanting, and then the session is
    /// unchanged but for the words that were taken; or with `Damaged` or `Host`, as `flush` does. The write itself may meet
    /// `Damaged`, a touched node that is short or does not open, `Host`, a call that failed, or `Memory`, want of memory.
    /// After `Damaged`, `Host` and `Memory` the session is broken and can only be closed. The file is then as it was last
    /// sealed; where the last call of a flush failed, it may have the version that was to be sealed, and a file that is not
    /// published yet, which a flush seals in place, may be any.
    pub fn write<H: Host, R: Words>(
        &mut self,
        host: &mut H,
        random: &mut R,
        at: u64,
        from: &[u8],
    ) -> Result<Written, WriteFault>
        requires { self.old.broken ≡ false }
        ensures goes { WriteGoes result at from.now self.old self.new (H.state host.old) (H.state host.new) (R.state random.old) (R.state random.new) }
        ensures aside { Aside self.old.name (H.state host.old) (H.state host.new) }
        ensures beside { KeepsName self.old (H.state host.old) (H.state host.new) }
    {
        check_write(at, from, self.tree.size())?;
        let count = from.len() as u64;
        if count == 0 {
            return Ok(Written {
                flushed_before: false,
            });
        }
        let flushed_before = self.make_room(host, random, at, at + count)?;
        self.put(host, at, from)?;
        Ok(Written { flushed_before })
    }

    /// Makes the content `size` bytes long, at most 2^32 and at most 32,768 more than its length. Bytes that come are
    /// zeros. Where more than 48 nodes would be dirty, the session is flushed first. The present size changes nothing.
    ///
    /// The refusals come in this order. `TooLarge` comes where the size is above 2^32, and `TooFar` where it is above the
    /// present one by more than 32,768: no call is made then, and the session is as before. All others are those of `write`:
    /// `Words` leaves the session unchanged but for the words that were taken, and `Damaged`, `Host` and `Memory` leave it
    /// broken.
    pub fn set_size<H: Host, R: Words>(
        &mut self,
        host: &mut H,
        random: &mut R,
        size: u64,
    ) -> Result<Written, SizeFault>
        requires { self.old.broken ≡ false }
        ensures goes { SizeGoes result size self.old self.new (H.state host.old) (H.state host.new) (R.state random.old) (R.state random.new) }
        ensures aside { Aside self.old.name (H.state host.old) (H.state host.new) }
        ensures beside { KeepsName self.old (H.state host.old) (H.state host.new) }
    {
        if size > LARGEST {
            return Err(SizeFault::TooLarge);
        }
        let old = self.tree.size();
        if size > old + LONGEST {
            return Err(SizeFault::TooFar { size: old });
        }
        if size == old {
            return Ok(Written {
                flushed_before: false,
            });
        }
        let (from, end) = resized_range(old, size);
        let flushed_before = self.make_room(host, random, from, end)?;
        self.resize(host, size)?;
        Ok(Written { flushed_before })
    }
}
