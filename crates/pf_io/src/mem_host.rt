// A host in memory: its own calls, and those of the trait.
ghost use Rattle.std.specs.Prelude.{◌≡◌, ◌≤◌, ◌⊎◌, ◌↔◌, IsTrue, IfOk, OnOk, OnErr, IsSomeAnd, Some, None, List, ℕ, [], option_map, length, take, Contains, alloc_error};
ghost use Rattle.pf_io.specs.Counts.{HasCause, counted};
ghost use Rattle.pf_io.specs.Disk.{reading};
ghost use Rattle.pf_io.specs.Moments.{Does};
ghost use Rattle.pf_io.specs.Steps.{Stays, Changes, Writes, Cuts, Syncs, Makes, Swaps, Removes, AtOnce};
ghost use Rattle.pf_io.specs.Host.{LengthWas, Gave, Wrote, WasCut, Synced, Made, Swapped, Removed, Tells, CountsRead, CountsWrite, CountsNeither, KeepsFiles, OnHonest, OnDisk, ReadsFrom, KeepsRest, length_of, contents};
ghost use Rattle.pf_io.specs.Replay.{Call, answers_of};
ghost use Rattle.pf_io.specs.Storage.{StoresAfter, Records, events_of};
ghost use Rattle.pf_io.specs.Memory.{memory_of, host_of, disk_now, IsUnused, Puts, NamesCall, earlier, IsToFail, IsCall, IsAfterCrash};
ghost use Rattle.pf_io.specs.SoundProofs.{reads_as_image};

use crate::counts::raise;
use crate::mem_calls::{answer_length, cut, give, make, put, put_torn, remove, swap, sync, write};
use crate::memory::MemHost;
use crate::storage::{Entry, find};
use crate::tear::Tear;
use crate::told::Told;
use crate::{Host, HostFault, Memory};
use std::alloc::{AllocError, Global};

impl MemHost {
    /// A host with no files.
    pub fn new(alloc: Global) -> Self
        ensures unused { IsUnused (memory_of result) }
        ensures no_events { (memory_of result).events ≡ [] }
        ensures no_files { (name : List ℕ) → disk_now (memory_of result) name ≡ None }
    {
        MemHost::unused(alloc, Vec::new(alloc), Vec::new(alloc))
    }

    // A host with these files and events, of which nothing was asked yet.
    fn unused(alloc: Global, files: Vec<Entry>, told: Vec<Told>) -> Self
        requires stores { StoresAfter files.items told.items }
        requires no_answers { answers_of (events_of told.items) ≡ [] }
        ensures unused { IsUnused (memory_of result) }
        ensures events { (memory_of result).events ≡ events_of told.items }
    {
        MemHost {
            alloc,
            files,
            told,
            failing: Vec::new(alloc),
            stop: None,
            calls: 0,
            faults: 0,
            reads: 0,
            writes: 0,
            widest: 0,
            starved: 0,
        }
    }

    /// Gives a name a synced file of these bytes, whatever it had. It is no call of the trait, and counts nothing.
    pub fn put(&mut self, name: &str, bytes: &[u8]) -> Result<(), Memory>
        ensures ok { OnOk result (Puts name.now bytes.now (memory_of self.old) (memory_of self.new)) }
        ensures err { OnErr result (memory_of self.new ≡ memory_of self.old) }
    {
        put(
            self.alloc,
            &mut self.files,
            &mut self.told,
            name.as_bytes(),
            bytes,
        )?;
        Ok(())
    }

    /// The bytes that a read of the whole file gives, or `None` where the name is absent.
    pub fn bytes(&self, name: &str) -> Option<&[u8]>
        ensures { option_map (λ bytes. bytes.now) result ≡ reading (disk_now (memory_of self.now)) name.now }
    {
        match find(&self.files, name.as_bytes()) {
            Some(file) => Some(&file.bytes),
            None => None,
        }
    }

    /// From now on the trait's call with this number, counted from 0, is a counted fault that changes nothing else.
    /// Calls named before stay named.
    pub fn fail_at(&mut self, call: u64) -> Result<(), Memory>
        ensures ok { OnOk result (NamesCall call (memory_of self.old) (memory_of self.new)) }
        ensures err { OnErr result (memory_of self.new ≡ memory_of self.old) }
    {
        self.failing.push(call)?;
        Ok(())
    }

    /// From now on the trait's call with this number, counted from 0, and all later ones are counted faults that change
    /// nothing else. Of two stops the earlier one holds.
    pub fn stop_at(&mut self, call: u64)
        ensures { memory_of self.new ≡ record (memory_of self.old) { stop = Some (earlier (memory_of self.old).stop call) } }
    {
        self.stop = match self.stop {
            Some(stop) => Some(stop.min(call)),
            None => Some(call),
        };
    }

    /// The host after a crash: each file as `tear` says, which is one outcome that a crash may have, and nothing pending.
    /// It counts from 0, has given no answers and has no calls that are to fault. Without memory the host is dropped.
    pub fn after_crash(self, tear: Tear) -> Result<MemHost, Memory>
        ensures { IfOk result (λ host. IsAfterCrash tear (memory_of self) (memory_of host)) }
    {
        let mut files = Vec::new(self.alloc);
        let mut told = Vec::new(self.alloc);
        put_torn(self.alloc, &self.files, tear, &mut files, &mut told)?;
        Ok(MemHost::unused(self.alloc, files, told))
    }

    /// How many calls of the trait found no memory; each was a counted fault.
    pub fn starved(&self) -> u64
        ensures { result ≡ (memory_of self.now).starved }
    {
        self.starved
    }
}

fn is_stopped(stop: Option<u64>, call: u64) -> bool
    ensures { IsTrue result ↔ IsSomeAnd stop (λ stop. stop ≤ call) }
{
    match stop {
        Some(stop) => stop <= call,
        None => false,
    }
}

// Counts a call, and says whether it is to fail.
fn is_to_fail(calls: &mut u64, failing: &[u64], stop: Option<u64>) -> bool
    ensures fails { IsTrue result ↔ (Contains failing.now calls.old ⊎ IsSomeAnd stop (λ stop. stop ≤ calls.old)) }
    ensures counts { calls.new ≡ counted calls.old }
{
    let call = *calls;
    raise(calls);
    failing.contains(&call) || is_stopped(stop, call)
}

// Want of memory is a counted fault.
fn count_starved<T>(
    faults: &mut u64,
    starved: &mut u64,
    outcome: Result<T, AllocError>,
) -> Result<T, HostFault>
    ensures cause { HasCause faults.old faults.new result }
    ensures starves { HasCause starved.old starved.new result }
    ensures value { IfOk result (λ value. outcome ≡ Ok value) }
    ensures error { OnErr result (outcome ≡ Err alloc_error) }
{
    match outcome {
        Ok(value) => Ok(value),
        Err(_) => {
            raise(faults);
            raise(starved);
            Err(HostFault)
        }
    }
}

impl Host for MemHost {
    ghost state = { λ host. host_of (memory_of host) };

    ghost reads_as_image = { λ host. reads_as_image (memory_of host).events };

    fn len(&mut self, name: &str) -> Result<Option<u64>, HostFault>
        ensures cause { HasCause (memory_of self.old).faults (memory_of self.new).faults result }
        ensures counts { CountsNeither (host_of (memory_of self.old)) (host_of (memory_of self.new)) }
        ensures told { Tells result (λ length. LengthWas name.now length) (host_of (memory_of self.old)) (host_of (memory_of self.new)) }
        ensures files { KeepsFiles (host_of (memory_of self.old)) (host_of (memory_of self.new)) }
        ensures honest { IfOk result (λ length. OnHonest (host_of (memory_of self.old)) (λ files. length ≡ length_of (files name.now))) }
        ensures disk { OnDisk (host_of (memory_of self.old)) (host_of (memory_of self.new)) (Does Stays) }
        ensures records { Records result (λ length. Call (LengthWas name.now length)) (memory_of self.old).events (memory_of self.new).events }
        ensures call { IsCall result (memory_of self.old) (memory_of self.new) }
    {
        if is_to_fail(&mut self.calls, &self.failing, self.stop) {
            raise(&mut self.faults);
            return Err(HostFault);
        }
        let outcome = answer_length(self.alloc, &self.files, &mut self.told, name);
        count_starved(&mut self.faults, &mut self.starved, outcome)
    }

    fn read_at(&mut self, name: &str, at: u64, to: &mut [u8]) -> Result<usize, HostFault>
        ensures rest { IfOk result (λ n. KeepsRest n to.old to.new) }
        ensures cause { HasCause (memory_of self.old).faults (memory_of self.new).faults result }
        ensures counts { CountsRead (length to.old) (host_of (memory_of self.old)) (host_of (memory_of self.new)) }
        ensures told { Tells result (λ n. Gave name.now at (length to.old) (take n to.new)) (host_of (memory_of self.old)) (host_of (memory_of self.new)) }
        ensures files { KeepsFiles (host_of (memory_of self.old)) (host_of (memory_of self.new)) }
        ensures honest { IfOk result (λ n. OnHonest (host_of (memory_of self.old)) (λ files. ReadsFrom at n to.new (contents (files name.now)))) }
        ensures disk { OnDisk (host_of (memory_of self.old)) (host_of (memory_of self.new)) (Does Stays) }
        ensures records { Records result (λ n. Call (Gave name.now at (length to.old) (take n to.new))) (memory_of self.old).events (memory_of self.new).events }
        ensures untouched { IsToFail (memory_of self.old) → to.new ≡ to.old }
        ensures call { IsCall result (memory_of self.old) (memory_of self.new) }
    {
        raise(&mut self.reads);
        self.widest = self.widest.max(to.len());
        if is_to_fail(&mut self.calls, &self.failing, self.stop) {
            raise(&mut self.faults);
            return Err(HostFault);
        }
        let outcome = give(self.alloc, &self.files, &mut self.told, name, at, to);
        count_starved(&mut self.faults, &mut self.starved, outcome)
    }

    fn write_at(&mut self, name: &str, at: u64, from: &[u8]) -> Result<(), HostFault>
        ensures cause { HasCause (memory_of self.old).faults (memory_of self.new).faults result }
        ensures counts { CountsWrite (length from.now) (host_of (memory_of self.old)) (host_of (memory_of self.new)) }
        ensures told { Tells result (λ _. Wrote name.now at from.now) (host_of (memory_of self.old)) (host_of (memory_of self.new)) }
        ensures disk { OnDisk (host_of (memory_of self.old)) (host_of (memory_of self.new)) (Does (Changes name.now (Writes at from.now result))) }
        ensures records { Records result (λ _. Call (Wrote name.now at from.now)) (memory_of self.old).events (memory_of self.new).events }
        ensures call { IsCall result (memory_of self.old) (memory_of self.new) }
    {
        raise(&mut self.writes);
        self.widest = self.widest.max(from.len());
        if is_to_fail(&mut self.calls, &self.failing, self.stop) {
            raise(&mut self.faults);
            return Err(HostFault);
        }
        let outcome = write(self.alloc, &mut self.files, &mut self.told, name, at, from);
        count_starved(&mut self.faults, &mut self.starved, outcome)
    }

    fn cut(&mut self, name: &str, len: u64) -> Result<(), HostFault>
        ensures cause { HasCause (memory_of self.old).faults (memory_of self.new).faults result }
        ensures counts { CountsNeither (host_of (memory_of self.old)) (host_of (memory_of self.new)) }
        ensures told { Tells result (λ _. WasCut name.now len) (host_of (memory_of self.old)) (host_of (memory_of self.new)) }
        ensures disk { OnDisk (host_of (memory_of self.old)) (host_of (memory_of self.new)) (Does (Changes name.now (Cuts len result))) }
        ensures records { Records result (λ _. Call (WasCut name.now len)) (memory_of self.old).events (memory_of self.new).events }
        ensures call { IsCall result (memory_of self.old) (memory_of self.new) }
    {
        if is_to_fail(&mut self.calls, &self.failing, self.stop) {
            raise(&mut self.faults);
            return Err(HostFault);
        }
        let outcome = cut(self.alloc, &mut self.files, &mut self.told, name, len);
        count_starved(&mut self.faults, &mut self.starved, outcome)
    }

    fn sync(&mut self, name: &str) -> Result<(), HostFault>
        ensures cause { HasCause (memory_of self.old).faults (memory_of self.new).faults result }
        ensures counts { CountsNeither (host_of (memory_of self.old)) (host_of (memory_of self.new)) }
        ensures told { Tells result (λ _. Synced name.now) (host_of (memory_of self.old)) (host_of (memory_of self.new)) }
        ensures disk { OnDisk (host_of (memory_of self.old)) (host_of (memory_of self.new)) (Does (Changes name.now (Syncs result))) }
        ensures records { Records result (λ _. Call (Synced name.now)) (memory_of self.old).events (memory_of self.new).events }
        ensures call { IsCall result (memory_of self.old) (memory_of self.new) }
    {
        if is_to_fail(&mut self.calls, &self.failing, self.stop) {
            raise(&mut self.faults);
            return Err(HostFault);
        }
        let outcome = sync(self.alloc, &mut self.files, &mut self.told, name);
        count_starved(&mut self.faults, &mut self.starved, outcome)
    }

    fn make(&mut self, name: &str) -> Result<(), HostFault>
        ensures cause { HasCause (memory_of self.old).faults (memory_of self.new).faults result }
        ensures counts { CountsNeither (host_of (memory_of self.old)) (host_of (memory_of self.new)) }
        ensures told { Tells result (λ _. Made name.now) (host_of (memory_of self.old)) (host_of (memory_of self.new)) }
        ensures disk { OnDisk (host_of (memory_of self.old)) (host_of (memory_of self.new)) (Does (AtOnce result (Makes name.now))) }
        ensures records { Records result (λ _. Call (Made name.now)) (memory_of self.old).events (memory_of self.new).events }
        ensures call { IsCall result (memory_of self.old) (memory_of self.new) }
    {
        if is_to_fail(&mut self.calls, &self.failing, self.stop) {
            raise(&mut self.faults);
            return Err(HostFault);
        }
        let outcome = make(self.alloc, &mut self.files, &mut self.told, name);
        count_starved(&mut self.faults, &mut self.starved, outcome)
    }

    fn swap_name(&mut self, from: &str, to: &str) -> Result<(), HostFault>
        ensures cause { HasCause (memory_of self.old).faults (memory_of self.new).faults result }
        ensures counts { CountsNeither (host_of (memory_of self.old)) (host_of (memory_of self.new)) }
        ensures told { Tells result (λ _. Swapped from.now to.now) (host_of (memory_of self.old)) (host_of (memory_of self.new)) }
        ensures disk { OnDisk (host_of (memory_of self.old)) (host_of (memory_of self.new)) (Does (AtOnce result (Swaps from.now to.now))) }
        ensures records { Records result (λ _. Call (Swapped from.now to.now)) (memory_of self.old).events (memory_of self.new).events }
        ensures call { IsCall result (memory_of self.old) (memory_of self.new) }
    {
        if is_to_fail(&mut self.calls, &self.failing, self.stop) {
            raise(&mut self.faults);
            return Err(HostFault);
        }
        let outcome = swap(self.alloc, &mut self.files, &mut self.told, from, to);
        count_starved(&mut self.faults, &mut self.starved, outcome)
    }

    fn remove(&mut self, name: &str) -> Result<(), HostFault>
        ensures cause { HasCause (memory_of self.old).faults (memory_of self.new).faults result }
        ensures counts { CountsNeither (host_of (memory_of self.old)) (host_of (memory_of self.new)) }
        ensures told { Tells result (λ _. Removed name.now) (host_of (memory_of self.old)) (host_of (memory_of self.new)) }
        ensures disk { OnDisk (host_of (memory_of self.old)) (host_of (memory_of self.new)) (Does (AtOnce result (Removes name.now))) }
        ensures records { Records result (λ _. Call (Removed name.now)) (memory_of self.old).events (memory_of self.new).events }
        ensures call { IsCall result (memory_of self.old) (memory_of self.new) }
    {
        if is_to_fail(&mut self.calls, &self.failing, self.stop) {
            raise(&mut self.faults);
            return Err(HostFault);
        }
        let outcome = remove(self.alloc, &mut self.files, &mut self.told, name);
        count_starved(&mut self.faults, &mut self.starved, outcome)
    }
}
