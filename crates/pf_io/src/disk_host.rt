// Real files as a host.
ghost use Rattle.std.specs.Prelude.{◌≡◌, ◌≤◌, length, drop, IfOk, OnOk};
ghost use Rattle.pf_io.specs.Counts.{HasCause};
ghost use Rattle.pf_io.specs.Host.{KeepsRest, CountsRead, CountsWrite, CountsNeither};
ghost use Rattle.pf_io.specs.Std.{DiskState, host_of};

use crate::counts::raise;
use crate::disk_changes::{cut_file, make_file, remove_file, swap_file, sync_file, write_file};
use crate::handles::Handles;
use crate::{Host, HostFault};
use std::fs::File;
use std::io::{self, ErrorKind};
use std::marker::Model;
use std::os::unix::fs::FileExt;
use std::rt::Files;

// No file is longer, and the system refuses a read that would reach further.
const LONGEST: u64 = (1 << 63) - 1;

// A file is read through a buffer of one of these sizes.
const PAGE: usize = 4096;

const SLICE: usize = 16_384;

const PIECE: usize = 32_768;

/// Real files by name, which tell their counts alone. A file is read and changed through one handle, which keeps other
/// runs from changing what this one reads, and from reading what it changes. It faults where it cannot tell that, where
/// what stands at a name is no plain file, and where a name to be changed is absent.
#[derive(Drop)]
pub struct DiskHost<R: Files<File = File> + AllocGlobal + Drop> {
    system: R,
    handles: Handles,
    faults: u64,
    reads: u64,
    writes: u64,
    widest: usize,
}

impl<R: Files<File = File> + AllocGlobal + Drop> Model for DiskHost<R> {
    ghost use Rattle.pf_io.specs.Std.{DiskState};

    ghost Value = { DiskState };

    ghost view = { λ d. record { faults = d.faults; reads = d.reads; writes = d.writes; widest = d.widest } };
}

impl<R: Files<File = File> + AllocGlobal + Drop> DiskHost<R> {
    /// The files of the system.
    pub fn new(system: R) -> Self
        ensures { result ≡ record { faults = 0; reads = 0; writes = 0; widest = 0 } }
    {
        let handles = Handles::new(system.alloc());
        DiskHost {
            system,
            handles,
            faults: 0,
            reads: 0,
            writes: 0,
            widest: 0,
        }
    }
}

// An error is a counted fault.
fn count_fault<T>(faults: &mut u64, outcome: io::Result<T>) -> Result<T, HostFault>
    ensures cause { HasCause faults.old faults.new result }
    ensures value { IfOk result (λ value. outcome ≡ Ok value) }
{
    match outcome {
        Ok(value) => Ok(value),
        Err(_) => {
            raise(faults);
            Err(HostFault)
        }
    }
}

fn file_len<R: Files<File = File>>(
    system: &R,
    handles: &mut Handles,
    name: &str,
) -> io::Result<Option<u64>> {
    match handles.hold_to_read(system, name)? {
        Some(id) => Ok(Some(handles.file(id)?.metadata()?.len())),
        None => Ok(None),
    }
}

// Reads once through a buffer, and leaves what is behind the bytes that it read.
fn read_once(file: &File, at: u64, to: &mut [u8], buffer: &mut [u8]) -> io::Result<usize>
    ensures { IfOk result (λ n. KeepsRest n to.old to.new) }
{
    let reach = LONGEST.saturating_sub(at) as usize;
    let room = buffer.len().min(to.len()).min(reach);
    if room == 0 {
        return Ok(0);
    }
    for _ in 0..u64::MAX {
        match file.read_at(&mut buffer[..room], at) {
            Ok(n) => {
                to[..n].copy_from_slice(&buffer[..n]);
                return Ok(n);
            }
            Err(error) if error.kind() == ErrorKind::Interrupted => {}
            Err(error) => return Err(error),
        }
    }
    Err(ErrorKind::Interrupted.into())
}

// Reads through a buffer that has the room, as far as a piece.
fn read_some(file: &File, at: u64, to: &mut [u8]) -> io::Result<usize>
    ensures { IfOk result (λ n. KeepsRest n to.old to.new) }
{
    if to.len() <= PAGE {
        read_once(file, at, to, &mut [0; PAGE])
    } else if to.len() <= SLICE {
        read_once(file, at, to, &mut [0; SLICE])
    } else {
        read_once(file, at, to, &mut [0; PIECE])
    }
}

// Reads until the buffer is full or nothing more comes.
fn fill(file: &File, at: u64, to: &mut [u8]) -> io::Result<usize>
    ensures { IfOk result (λ n. KeepsRest n to.old to.new) }
{
    let mut filled = 0;
    while filled < to.len() {
        let n = read_some(file, at.saturating_add(filled as u64), &mut to[filled..])?;
        if n == 0 {
            break;
        }
        filled += n;
    }
    Ok(filled)
}

fn read_file<R: Files<File = File>>(
    system: &R,
    handles: &mut Handles,
    name: &str,
    at: u64,
    to: &mut [u8],
) -> io::Result<usize>
    ensures { IfOk result (λ n. KeepsRest n to.old to.new) }
{
    if let Some(open) = handles.find(name) {
        return fill(&open.file, at, to);
    }
    match handles.hold_to_read(system, name)? {
        Some(id) => fill(handles.file(id)?, at, to),
        None => Ok(0),
    }
}

impl<R: Files<File = File> + AllocGlobal + Drop> Host for DiskHost<R> {
    ghost state = { host_of };

    ghost reads_as_image = { λ _. tt };

    fn len(&mut self, name: &str) -> Result<Option<u64>, HostFault>
        ensures cause { HasCause self.old.faults self.new.faults result }
        ensures counts { CountsNeither (host_of self.old) (host_of self.new) }
    {
        let outcome = file_len(&self.system, &mut self.handles, name);
        count_fault(&mut self.faults, outcome)
    }

    fn read_at(&mut self, name: &str, at: u64, to: &mut [u8]) -> Result<usize, HostFault>
        ensures rest { IfOk result (λ n. KeepsRest n to.old to.new) }
        ensures cause { HasCause self.old.faults self.new.faults result }
        ensures counts { CountsRead (length to.old) (host_of self.old) (host_of self.new) }
    {
        raise(&mut self.reads);
        self.widest = self.widest.max(to.len());
        let outcome = read_file(&self.system, &mut self.handles, name, at, to);
        count_fault(&mut self.faults, outcome)
    }

    fn write_at(&mut self, name: &str, at: u64, from: &[u8]) -> Result<(), HostFault>
        ensures cause { HasCause self.old.faults self.new.faults result }
        ensures counts { CountsWrite (length from.now) (host_of self.old) (host_of self.new) }
    {
        raise(&mut self.writes);
        self.widest = self.widest.max(from.len());
        let outcome = write_file(&self.system, &mut self.handles, name, at, from);
        count_fault(&mut self.faults, outcome)
    }

    fn cut(&mut self, name: &str, len: u64) -> Result<(), HostFault>
        ensures cause { HasCause self.old.faults self.new.faults result }
        ensures counts { CountsNeither (host_of self.old) (host_of self.new) }
    {
        let outcome = cut_file(&self.system, &mut self.handles, name, len);
        count_fault(&mut self.faults, outcome)
    }

    fn sync(&mut self, name: &str) -> Result<(), HostFault>
        ensures cause { HasCause self.old.faults self.new.faults result }
        ensures counts { CountsNeither (host_of self.old) (host_of self.new) }
    {
        let outcome = sync_file(&self.system, &mut self.handles, name);
        count_fault(&mut self.faults, outcome)
    }

    fn make(&mut self, name: &str) -> Result<(), HostFault>
        ensures cause { HasCause self.old.faults self.new.faults result }
        ensures counts { CountsNeither (host_of self.old) (host_of self.new) }
    {
        let alloc = self.system.alloc();
        let outcome = make_file(&self.system, alloc, &mut self.handles, name);
        count_fault(&mut self.faults, outcome)
    }

    fn swap_name(&mut self, from: &str, to: &str) -> Result<(), HostFault>
        ensures cause { HasCause self.old.faults self.new.faults result }
        ensures counts { CountsNeither (host_of self.old) (host_of self.new) }
    {
        let alloc = self.system.alloc();
        let outcome = swap_file(&self.system, alloc, &mut self.handles, from, to);
        count_fault(&mut self.faults, outcome)
    }

    fn remove(&mut self, name: &str) -> Result<(), HostFault>
        ensures cause { HasCause self.old.faults self.new.faults result }
        ensures counts { CountsNeither (host_of self.old) (host_of self.new) }
    {
        let outcome = remove_file(&self.system, &mut self.handles, name);
        count_fault(&mut self.faults, outcome)
    }
}
