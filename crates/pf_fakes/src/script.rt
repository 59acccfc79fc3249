// A host that answers by a script.
ghost use Rattle.std.specs.Prelude.{◌≡◌, ◌++◌, ◌∷◌, [], IfOk, OnOk, OnErr, IsTrue, ◌↔◌, IsSome, Some, None, option_map, length, take, drop};
ghost use Rattle.pf_io.specs.Counts.{HasCause};
ghost use Rattle.pf_io.specs.Moments.{Does};
ghost use Rattle.pf_io.specs.Steps.{Stays, Changes, Writes, Cuts, Syncs, Makes, Swaps, Removes, AtOnce};
ghost use Rattle.pf_io.specs.Host.{LengthWas, Gave, Wrote, WasCut, Synced, Made, Swapped, Removed, Tells, CountsRead, CountsWrite, CountsNeither, KeepsFiles, OnHonest, OnDisk, ReadsFrom, KeepsRest, length_of, contents};
ghost use Rattle.pf_fakes.specs.Script.{script_of, host_of, next, length_said, bytes_said, done_said, TakesNext, Gives, unused};

use crate::answer::Answer;
use crate::counts::{count_starved, raise};
use crate::record::{
    Recorded, record_bytes, record_cut, record_length, record_make, record_remove, record_swap,
    record_sync, record_write,
};
use pf_io::{Host, HostFault, Memory};
use std::alloc::Global;
use std::collections::VecDeque;

/// A host that answers by a script: each call of the trait takes the next answer. One that is missing, that is of another
/// form than the call asks for, or that is `Fail`, is a counted fault. It tells its answers and is not honest.
#[derive(Drop)]
pub struct ScriptHost {
    alloc: Global,
    script: VecDeque<Answer>,
    told: Vec<Recorded>,
    faults: u64,
    reads: u64,
    writes: u64,
    widest: usize,
    starved: u64,
}

impl ScriptHost {
    /// A host whose script is empty.
    pub fn new(alloc: Global) -> Self
        ensures { script_of result ≡ unused }
    {
        ScriptHost {
            alloc,
            script: VecDeque::new(alloc),
            told: Vec::new(alloc),
            faults: 0,
            reads: 0,
            writes: 0,
            widest: 0,
            starved: 0,
        }
    }

    /// Appends an answer to the script.
    pub fn answer(&mut self, next: Answer) -> Result<(), Memory>
        ensures ok { OnOk result (script_of self.new ≡ record (script_of self.old) { left = (script_of self.old).left ++ next ∷ [] }) }
        ensures err { OnErr result (script_of self.new ≡ script_of self.old) }
    {
        self.script.push_back(next)?;
        Ok(())
    }

    /// How many calls of the trait found no memory to record what was answered; each was a counted fault.
    pub fn starved(&self) -> u64
        ensures { result ≡ (script_of self.now).starved }
    {
        self.starved
    }
}

fn next_length(script: &mut VecDeque<Answer>) -> Option<Option<u64>>
    ensures said { result ≡ length_said (next script.old.items) }
    ensures left { script.new.items ≡ drop 1 script.old.items }
{
    match script.pop_front() {
        Some(Answer::Len(length)) => Some(length),
        _ => None,
    }
}

fn next_bytes(script: &mut VecDeque<Answer>) -> Option<Vec<u8>>
    ensures said { option_map (λ bytes. bytes.items) result ≡ bytes_said (next script.old.items) }
    ensures left { script.new.items ≡ drop 1 script.old.items }
{
    match script.pop_front() {
        Some(Answer::Given(bytes)) => Some(bytes.into()),
        _ => None,
    }
}

fn next_is_done(script: &mut VecDeque<Answer>) -> bool
    ensures said { IsTrue result ↔ IsSome (done_said (next script.old.items)) }
    ensures left { script.new.items ≡ drop 1 script.old.items }
{
    matches!(script.pop_front(), Some(Answer::Done))
}

// Copies the bytes to the front of the buffer, as far as it has room.
fn copy_front(bytes: &[u8], to: &mut [u8]) -> usize
    ensures gives { Gives to.new bytes.now result }
    ensures rest { KeepsRest result to.old to.new }
{
    let n = bytes.len().min(to.len());
    to[..n].copy_from_slice(&bytes[..n]);
    n
}

impl Host for ScriptHost {
    ghost state = { λ host. host_of (script_of host) };

    ghost reads_as_image = { λ host. tt };

    fn len(&mut self, name: &str) -> Result<Option<u64>, HostFault>
        ensures cause { HasCause (script_of self.old).faults (script_of self.new).faults result }
        ensures counts { CountsNeither (host_of (script_of self.old)) (host_of (script_of self.new)) }
        ensures told { Tells result (λ length. LengthWas name.now length) (host_of (script_of self.old)) (host_of (script_of self.new)) }
        ensures files { KeepsFiles (host_of (script_of self.old)) (host_of (script_of self.new)) }
        ensures honest { IfOk result (λ length. OnHonest (host_of (script_of self.old)) (λ files. length ≡ length_of (files name.now))) }
        ensures disk { OnDisk (host_of (script_of self.old)) (host_of (script_of self.new)) (Does Stays) }
        ensures call { TakesNext length_said (λ said length. length ≡ said) result (script_of self.old) (script_of self.new) }
    {
        let Some(length) = next_length(&mut self.script) else {
            raise(&mut self.faults);
            return Err(HostFault);
        };
        let outcome = record_length(self.alloc, &mut self.told, name, length);
        count_starved(&mut self.faults, &mut self.starved, outcome)?;
        Ok(length)
    }

    fn read_at(&mut self, name: &str, at: u64, to: &mut [u8]) -> Result<usize, HostFault>
        ensures rest { IfOk result (λ n. KeepsRest n to.old to.new) }
        ensures untouched { bytes_said (next (script_of self.old).left) ≡ None → to.new ≡ to.old }
        ensures cause { HasCause (script_of self.old).faults (script_of self.new).faults result }
        ensures counts { CountsRead (length to.old) (host_of (script_of self.old)) (host_of (script_of self.new)) }
        ensures told { Tells result (λ n. Gave name.now at (length to.old) (take n to.new)) (host_of (script_of self.old)) (host_of (script_of self.new)) }
        ensures files { KeepsFiles (host_of (script_of self.old)) (host_of (script_of self.new)) }
        ensures honest { IfOk result (λ n. OnHonest (host_of (script_of self.old)) (λ files. ReadsFrom at n to.new (contents (files name.now)))) }
        ensures disk { OnDisk (host_of (script_of self.old)) (host_of (script_of self.new)) (Does Stays) }
        ensures call { TakesNext bytes_said (Gives to.new) result (script_of self.old) (script_of self.new) }
    {
        raise(&mut self.reads);
        self.widest = self.widest.max(to.len());
        let Some(mut bytes) = next_bytes(&mut self.script) else {
            raise(&mut self.faults);
            return Err(HostFault);
        };
        let n = copy_front(&bytes, to);
        bytes.truncate(n);
        let outcome = record_bytes(self.alloc, &mut self.told, name, at, to.len(), bytes);
        count_starved(&mut self.faults, &mut self.starved, outcome)?;
        Ok(n)
    }

    fn write_at(&mut self, name: &str, at: u64, from: &[u8]) -> Result<(), HostFault>
        ensures cause { HasCause (script_of self.old).faults (script_of self.new).faults result }
        ensures counts { CountsWrite (length from.now) (host_of (script_of self.old)) (host_of (script_of self.new)) }
        ensures told { Tells result (λ _. Wrote name.now at from.now) (host_of (script_of self.old)) (host_of (script_of self.new)) }
        ensures disk { OnDisk (host_of (script_of self.old)) (host_of (script_of self.new)) (Does (Changes name.now (Writes at from.now result))) }
        ensures call { TakesNext done_said (λ _ _. Unit {0}) result (script_of self.old) (script_of self.new) }
    {
        raise(&mut self.writes);
        self.widest = self.widest.max(from.len());
        if !next_is_done(&mut self.script) {
            raise(&mut self.faults);
            return Err(HostFault);
        }
        let outcome = record_write(self.alloc, &mut self.told, name, at, from);
        count_starved(&mut self.faults, &mut self.starved, outcome)
    }

    fn cut(&mut self, name: &str, len: u64) -> Result<(), HostFault>
        ensures cause { HasCause (script_of self.old).faults (script_of self.new).faults result }
        ensures counts { CountsNeither (host_of (script_of self.old)) (host_of (script_of self.new)) }
        ensures told { Tells result (λ _. WasCut name.now len) (host_of (script_of self.old)) (host_of (script_of self.new)) }
        ensures disk { OnDisk (host_of (script_of self.old)) (host_of (script_of self.new)) (Does (Changes name.now (Cuts len result))) }
        ensures call { TakesNext done_said (λ _ _. Unit {0}) result (script_of self.old) (script_of self.new) }
    {
        if !next_is_done(&mut self.script) {
            raise(&mut self.faults);
            return Err(HostFault);
        }
        let outcome = record_cut(self.alloc, &mut self.told, name, len);
        count_starved(&mut self.faults, &mut self.starved, outcome)
    }

    fn sync(&mut self, name: &str) -> Result<(), HostFault>
        ensures cause { HasCause (script_of self.old).faults (script_of self.new).faults result }
        ensures counts { CountsNeither (host_of (script_of self.old)) (host_of (script_of self.new)) }
        ensures told { Tells result (λ _. Synced name.now) (host_of (script_of self.old)) (host_of (script_of self.new)) }
        ensures disk { OnDisk (host_of (script_of self.old)) (host_of (script_of self.new)) (Does (Changes name.now (Syncs result))) }
        ensures call { TakesNext done_said (λ _ _. Unit {0}) result (script_of self.old) (script_of self.new) }
    {
        if !next_is_done(&mut self.script) {
            raise(&mut self.faults);
            return Err(HostFault);
        }
        let outcome = record_sync(self.alloc, &mut self.told, name);
        count_starved(&mut self.faults, &mut self.starved, outcome)
    }

    fn make(&mut self, name: &str) -> Result<(), HostFault>
        ensures cause { HasCause (script_of self.old).faults (script_of self.new).faults result }
        ensures counts { CountsNeither (host_of (script_of self.old)) (host_of (script_of self.new)) }
        ensures told { Tells result (λ _. Made name.now) (host_of (script_of self.old)) (host_of (script_of self.new)) }
        ensures disk { OnDisk (host_of (script_of self.old)) (host_of (script_of self.new)) (Does (AtOnce result (Makes name.now))) }
        ensures call { TakesNext done_said (λ _ _. Unit {0}) result (script_of self.old) (script_of self.new) }
    {
        if !next_is_done(&mut self.script) {
            raise(&mut self.faults);
            return Err(HostFault);
        }
        let outcome = record_make(self.alloc, &mut self.told, name);
        count_starved(&mut self.faults, &mut self.starved, outcome)
    }

    fn swap_name(&mut self, from: &str, to: &str) -> Result<(), HostFault>
        ensures cause { HasCause (script_of self.old).faults (script_of self.new).faults result }
        ensures counts { CountsNeither (host_of (script_of self.old)) (host_of (script_of self.new)) }
        ensures told { Tells result (λ _. Swapped from.now to.now) (host_of (script_of self.old)) (host_of (script_of self.new)) }
        ensures disk { OnDisk (host_of (script_of self.old)) (host_of (script_of self.new)) (Does (AtOnce result (Swaps from.now to.now))) }
        ensures call { TakesNext done_said (λ _ _. Unit {0}) result (script_of self.old) (script_of self.new) }
    {
        if !next_is_done(&mut self.script) {
            raise(&mut self.faults);
            return Err(HostFault);
        }
        let outcome = record_swap(self.alloc, &mut self.told, from, to);
        count_starved(&mut self.faults, &mut self.starved, outcome)
    }

    fn remove(&mut self, name: &str) -> Result<(), HostFault>
        ensures cause { HasCause (script_of self.old).faults (script_of self.new).faults result }
        ensures counts { CountsNeither (host_of (script_of self.old)) (host_of (script_of self.new)) }
        ensures told { Tells result (λ _. Removed name.now) (host_of (script_of self.old)) (host_of (script_of self.new)) }
        ensures disk { OnDisk (host_of (script_of self.old)) (host_of (script_of self.new)) (Does (AtOnce result (Removes name.now))) }
        ensures call { TakesNext done_said (λ _ _. Unit {0}) result (script_of self.old) (script_of self.new) }
    {
        if !next_is_done(&mut self.script) {
            raise(&mut self.faults);
            return Err(HostFault);
        }
        let outcome = record_remove(self.alloc, &mut self.told, name);
        count_starved(&mut self.faults, &mut self.starved, outcome)
    }
}
