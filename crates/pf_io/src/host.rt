// The outside as the rest sees it: named files behind calls that may fail.
ghost use Rattle.std.specs.Prelude.{◌≡◌, length, take, IfOk};
ghost use Rattle.pf_io.specs.Counts.{HasCause};
ghost use Rattle.pf_io.specs.Moments.{Does};
ghost use Rattle.pf_io.specs.Steps.{Stays, Changes, Writes, Cuts, Syncs, Makes, Swaps, Removes, AtOnce};
ghost use Rattle.pf_io.specs.Host.{HostState, LengthWas, Gave, Wrote, WasCut, Synced, Made, Swapped, Removed, Tells, CountsRead, CountsWrite, CountsNeither, KeepsFiles, OnHonest, OnDisk, ReadsAsImage, ReadsFrom, KeepsRest, length_of, contents};

use crate::HostFault;

/// Named files. Nothing is promised of what a host answers, except where it is honest: then it tells its disk, the disk
/// before each call so far, and what a crash at any of these moments may leave.
///
/// A fault is counted once, in the call that answers it. At `Ok` the count is as before, so no fault was passed
/// over.
///
/// A call of an honest host that faults may have done all, a part or nothing of its work. A call on an absent name
/// changes nothing, except `make`, which makes the file.
pub trait Host {
    /// What the host tells: its counts, its answers so far, and where it is honest its disk.
    ghost state: { Self → HostState };

    /// The file's length in bytes, or `None` where the name is absent.
    fn len(&mut self, name: &str) -> Result<Option<u64>, HostFault>
        ensures cause { HasCause (state self.old).faults (state self.new).faults result }
        ensures counts { CountsNeither (state self.old) (state self.new) }
        ensures told { Tells result (λ length. LengthWas name.now length) (state self.old) (state self.new) }
        ensures files { KeepsFiles (state self.old) (state self.new) }
        ensures honest { IfOk result (λ length. OnHonest (state self.old) (λ files. length ≡ length_of (files name.now))) }
        ensures disk { OnDisk (state self.old) (state self.new) (Does Stays) };

    /// Reads from the byte at `at` on, as far as the room of `to` and the file reach, and answers how many bytes.
    /// It is 0 past the end, and where the name is absent. After a fault the bytes of `to` may be any.
    fn read_at(&mut self, name: &str, at: u64, to: &mut [u8]) -> Result<usize, HostFault>
        ensures rest { IfOk result (λ n. KeepsRest n to.old to.new) }
        ensures cause { HasCause (state self.old).faults (state self.new).faults result }
        ensures counts { CountsRead (length to.old) (state self.old) (state self.new) }
        ensures told { Tells result (λ n. Gave name.now at (length to.old) (take n to.new)) (state self.old) (state self.new) }
        ensures files { KeepsFiles (state self.old) (state self.new) }
        ensures honest { IfOk result (λ n. OnHonest (state self.old) (λ files. ReadsFrom at n to.new (contents (files name.now)))) }
        ensures disk { OnDisk (state self.old) (state self.new) (Does Stays) };

    /// Puts the bytes at `at`. A gap past the end reads as zeros. Until the next sync a crash may leave any bytes in the
    /// range, and each length that the file has had.
    fn write_at(&mut self, name: &str, at: u64, from: &[u8]) -> Result<(), HostFault>
        ensures cause { HasCause (state self.old).faults (state self.new).faults result }
        ensures counts { CountsWrite (length from.now) (state self.old) (state self.new) }
        ensures told { Tells result (λ _. Wrote name.now at from.now) (state self.old) (state self.new) }
        ensures disk { OnDisk (state self.old) (state self.new) (Does (Changes name.now (Writes at from.now result))) };

    /// Drops the bytes from `len` on, if there are any. Until the next sync a crash may leave any bytes there.
    fn cut(&mut self, name: &str, len: u64) -> Result<(), HostFault>
        ensures cause { HasCause (state self.old).faults (state self.new).faults result }
        ensures counts { CountsNeither (state self.old) (state self.new) }
        ensures told { Tells result (λ _. WasCut name.now len) (state self.old) (state self.new) }
        ensures disk { OnDisk (state self.old) (state self.new) (Does (Changes name.now (Cuts len result))) };

    /// From now on a crash leaves what a read of the file gives, until its next change.
    fn sync(&mut self, name: &str) -> Result<(), HostFault>
        ensures cause { HasCause (state self.old).faults (state self.new).faults result }
        ensures counts { CountsNeither (state self.old) (state self.new) }
        ensures told { Tells result (λ _. Synced name.now) (state self.old) (state self.new) }
        ensures disk { OnDisk (state self.old) (state self.new) (Does (Changes name.now (Syncs result))) };

    /// Makes the name an empty file, whatever stood there. A crash leaves the name as before or made.
    fn make(&mut self, name: &str) -> Result<(), HostFault>
        ensures cause { HasCause (state self.old).faults (state self.new).faults result }
        ensures counts { CountsNeither (state self.old) (state self.new) }
        ensures told { Tells result (λ _. Made name.now) (state self.old) (state self.new) }
        ensures disk { OnDisk (state self.old) (state self.new) (Does (AtOnce result (Makes name.now))) };

    /// Gives the file of `from` to the name `to`, whatever stood there, and leaves `from` absent. Where the two names are
    /// one, nothing changes. A crash leaves both names as before or both as after.
    fn swap_name(&mut self, from: &str, to: &str) -> Result<(), HostFault>
        ensures cause { HasCause (state self.old).faults (state self.new).faults result }
        ensures counts { CountsNeither (state self.old) (state self.new) }
        ensures told { Tells result (λ _. Swapped from.now to.now) (state self.old) (state self.new) }
        ensures disk { OnDisk (state self.old) (state self.new) (Does (AtOnce result (Swaps from.now to.now))) };

    /// Makes the name absent. A crash leaves it as before or absent.
    fn remove(&mut self, name: &str) -> Result<(), HostFault>
        ensures cause { HasCause (state self.old).faults (state self.new).faults result }
        ensures counts { CountsNeither (state self.old) (state self.new) }
        ensures told { Tells result (λ _. Removed name.now) (state self.old) (state self.new) }
        ensures disk { OnDisk (state self.old) (state self.new) (Does (AtOnce result (Removes name.now))) };

    /// The disk as it reads is one that a crash may leave.
    ghost reads_as_image: { (host : Self) → ReadsAsImage (state host) };
}
