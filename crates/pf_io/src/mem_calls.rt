// What each call does to the storage of a host in memory. Want of memory changes nothing.
ghost use Rattle.std.specs.Prelude.{◌≡◌, ◌+◌, ◌≤◌, [], List, ℕ, Some, None, IfOk, OnOk, OnErr, option_map, length, take, vec_len, vec_capacity};
ghost use Rattle.pf_io.specs.Host.{LengthWas, Gave, Wrote, WasCut, Synced, Made, Swapped, Removed, ReadsFrom, KeepsRest, length_of, contents};
ghost use Rattle.pf_io.specs.Replay.{Call, Put, write_stored, cut_stored, settled_stored, moved_by, answers_of};
ghost use Rattle.pf_io.specs.Storage.{look, bytes_of, stored_of, events_of, event_of, StoresAfter, Sets, Records, IsTorn};

use crate::storage::{Entry, StoredFile, find, len_of, read_from, remove_all};
use crate::tear::Tear;
use crate::told::Told;
use std::alloc::{AllocError, Global};

pub(crate) fn answer_length(
    alloc: Global,
    files: &[Entry],
    told: &mut Vec<Told>,
    name: &str,
) -> Result<Option<u64>, AllocError>
    requires { StoresAfter files.now told.old.items }
    ensures stores { StoresAfter files.now told.new.items }
    ensures answer { IfOk result (λ length. length ≡ length_of (bytes_of (look files.now name.now))) }
    ensures records { Records result (λ length. Call (LengthWas name.now length)) (events_of told.old.items) (events_of told.new.items) }
{
    let len = len_of(files, name.as_bytes());
    told.push(Told::Length(name.as_bytes().to_vec(alloc)?, len))?;
    Ok(len)
}

pub(crate) fn give(
    alloc: Global,
    files: &[Entry],
    told: &mut Vec<Told>,
    name: &str,
    at: u64,
    to: &mut [u8],
) -> Result<usize, AllocError>
    requires { StoresAfter files.now told.old.items }
    ensures stores { StoresAfter files.now told.new.items }
    ensures reads { IfOk result (λ n. ReadsFrom at n to.new (contents (bytes_of (look files.now name.now)))) }
    ensures rest { IfOk result (λ n. KeepsRest n to.old to.new) }
    ensures records { Records result (λ n. Call (Gave name.now at (length to.old) (take n to.new))) (events_of told.old.items) (events_of told.new.items) }
{
    let n = read_from(files, name.as_bytes(), at as usize, to);
    let bytes = to[..n].to_vec(alloc)?;
    told.push(Told::Given(name.as_bytes().to_vec(alloc)?, at, to.len(), bytes))?;
    Ok(n)
}

// A copy of the name, and room for one file more.
fn room_for(alloc: Global, files: &mut Vec<Entry>, name: &[u8]) -> Result<Vec<u8>, AllocError>
    ensures copy { IfOk result (λ copy. copy.items ≡ name.now) }
    ensures same { files.new.items ≡ files.old.items }
    ensures room { OnOk result (vec_len files.new + 1 ≤ vec_capacity files.new) }
{
    files.reserve(1)?;
    name.to_vec(alloc)
}

// Gives the name this file, or none, and records the event.
fn set_file(
    alloc: Global,
    files: &mut Vec<Entry>,
    told: &mut Vec<Told>,
    event: Told,
    name: &[u8],
    file: Option<StoredFile>,
) -> Result<(), AllocError>
    ensures sets { OnOk result (Sets name.now (option_map stored_of file) files.old.items files.new.items) }
    ensures same { OnErr result (files.new.items ≡ files.old.items) }
    ensures records { Records result (λ _. event_of event) (events_of told.old.items) (events_of told.new.items) }
{
    let copy = room_for(alloc, files, name)?;
    told.push(event)?;
    remove_all(files, name);
    if let Some(file) = file {
        files.push(Entry { name: copy, file })?;
    }
    Ok(())
}

fn next_written(
    alloc: Global,
    files: &[Entry],
    name: &[u8],
    at: u64,
    from: &[u8],
) -> Result<Option<StoredFile>, AllocError>
    ensures { IfOk result (λ next. option_map stored_of next ≡ option_map (write_stored at from.now) (look files.now name.now)) }
{
    match find(files, name) {
        Some(file) => Ok(Some(file.written(alloc, at as usize, from)?)),
        None => Ok(None),
    }
}

pub(crate) fn write(
    alloc: Global,
    files: &mut Vec<Entry>,
    told: &mut Vec<Told>,
    name: &str,
    at: u64,
    from: &[u8],
) -> Result<(), AllocError>
    requires { StoresAfter files.old.items told.old.items }
    ensures stores { StoresAfter files.new.items told.new.items }
    ensures records { Records result (λ _. Call (Wrote name.now at from.now)) (events_of told.old.items) (events_of told.new.items) }
{
    let name = name.as_bytes();
    let next = next_written(alloc, files, name, at, from)?;
    let event = Told::Write(name.to_vec(alloc)?, at, from.to_vec(alloc)?);
    set_file(alloc, files, told, event, name, next)
}

fn next_cut(
    alloc: Global,
    files: &[Entry],
    name: &[u8],
    len: u64,
) -> Result<Option<StoredFile>, AllocError>
    ensures { IfOk result (λ next. option_map stored_of next ≡ option_map (cut_stored len) (look files.now name.now)) }
{
    match find(files, name) {
        Some(file) => Ok(Some(file.shortened(alloc, len as usize)?)),
        None => Ok(None),
    }
}

pub(crate) fn cut(
    alloc: Global,
    files: &mut Vec<Entry>,
    told: &mut Vec<Told>,
    name: &str,
    len: u64,
) -> Result<(), AllocError>
    requires { StoresAfter files.old.items told.old.items }
    ensures stores { StoresAfter files.new.items told.new.items }
    ensures records { Records result (λ _. Call (WasCut name.now len)) (events_of told.old.items) (events_of told.new.items) }
{
    let name = name.as_bytes();
    let next = next_cut(alloc, files, name, len)?;
    let event = Told::Cut(name.to_vec(alloc)?, len);
    set_file(alloc, files, told, event, name, next)
}

fn next_synced(
    alloc: Global,
    files: &[Entry],
    name: &[u8],
) -> Result<Option<StoredFile>, AllocError>
    ensures { IfOk result (λ next. option_map stored_of next ≡ option_map (λ file. settled_stored file.bytes) (look files.now name.now)) }
{
    match find(files, name) {
        Some(file) => Ok(Some(StoredFile::settled(alloc, &file.bytes)?)),
        None => Ok(None),
    }
}

pub(crate) fn sync(
    alloc: Global,
    files: &mut Vec<Entry>,
    told: &mut Vec<Told>,
    name: &str,
) -> Result<(), AllocError>
    requires { StoresAfter files.old.items told.old.items }
    ensures stores { StoresAfter files.new.items told.new.items }
    ensures records { Records result (λ _. Call (Synced name.now)) (events_of told.old.items) (events_of told.new.items) }
{
    let name = name.as_bytes();
    let next = next_synced(alloc, files, name)?;
    let event = Told::Sync(name.to_vec(alloc)?);
    set_file(alloc, files, told, event, name, next)
}

pub(crate) fn make(
    alloc: Global,
    files: &mut Vec<Entry>,
    told: &mut Vec<Told>,
    name: &str,
) -> Result<(), AllocError>
    requires { StoresAfter files.old.items told.old.items }
    ensures stores { StoresAfter files.new.items told.new.items }
    ensures records { Records result (λ _. Call (Made name.now)) (events_of told.old.items) (events_of told.new.items) }
{
    let name = name.as_bytes();
    let file = StoredFile::settled(alloc, &[])?;
    let event = Told::Make(name.to_vec(alloc)?);
    set_file(alloc, files, told, event, name, Some(file))
}

pub(crate) fn put(
    alloc: Global,
    files: &mut Vec<Entry>,
    told: &mut Vec<Told>,
    name: &[u8],
    bytes: &[u8],
) -> Result<(), AllocError>
    requires { StoresAfter files.old.items told.old.items }
    ensures stores { StoresAfter files.new.items told.new.items }
    ensures records { Records result (λ _. Put name.now bytes.now) (events_of told.old.items) (events_of told.new.items) }
{
    let file = StoredFile::settled(alloc, bytes)?;
    let event = Told::Place(name.to_vec(alloc)?, bytes.to_vec(alloc)?);
    set_file(alloc, files, told, event, name, Some(file))
}

pub(crate) fn remove(
    alloc: Global,
    files: &mut Vec<Entry>,
    told: &mut Vec<Told>,
    name: &str,
) -> Result<(), AllocError>
    requires { StoresAfter files.old.items told.old.items }
    ensures stores { StoresAfter files.new.items told.new.items }
    ensures records { Records result (λ _. Call (Removed name.now)) (events_of told.old.items) (events_of told.new.items) }
{
    let name = name.as_bytes();
    let event = Told::Remove(name.to_vec(alloc)?);
    set_file(alloc, files, told, event, name, None)
}

// A copy of the file that a swap moves; `None` where it moves none.
fn moving(
    alloc: Global,
    files: &[Entry],
    from: &[u8],
    to: &[u8],
) -> Result<Option<StoredFile>, AllocError>
    ensures { IfOk result (λ file. option_map stored_of file ≡ moved_by from.now to.now (look files.now)) }
{
    if from == to {
        return Ok(None);
    }
    match find(files, from) {
        Some(file) => Ok(Some(file.copied(alloc)?)),
        None => Ok(None),
    }
}

pub(crate) fn swap(
    alloc: Global,
    files: &mut Vec<Entry>,
    told: &mut Vec<Told>,
    from: &str,
    to: &str,
) -> Result<(), AllocError>
    requires { StoresAfter files.old.items told.old.items }
    ensures stores { StoresAfter files.new.items told.new.items }
    ensures records { Records result (λ _. Call (Swapped from.now to.now)) (events_of told.old.items) (events_of told.new.items) }
{
    let from = from.as_bytes();
    let to = to.as_bytes();
    let moved = moving(alloc, files, from, to)?;
    let event = Told::Swap(from.to_vec(alloc)?, to.to_vec(alloc)?);
    let Some(file) = moved else {
        told.push(event)?;
        return Ok(());
    };
    set_file(alloc, files, told, event, to, Some(file))?;
    remove_all(files, from);
    Ok(())
}

// Puts each of these files as a crash leaves it. Of two of one name the first counts, so it is put last.
pub(crate) fn put_torn(
    alloc: Global,
    old: &[Entry],
    tear: Tear,
    files: &mut Vec<Entry>,
    told: &mut Vec<Told>,
) -> Result<(), AllocError>
    requires no_files { files.old.items ≡ [] }
    requires no_events { told.old.items ≡ [] }
    ensures stores { StoresAfter files.new.items told.new.items }
    ensures no_answers { answers_of (events_of told.new.items) ≡ [] }
    ensures torn { OnOk result (IsTorn tear (look old.now) (events_of told.new.items)) }
{
    for k in (0..old.len()).rev() {
        let entry = &old[k];
        let bytes = entry.file.torn(alloc, tear)?;
        put(alloc, files, told, &entry.name, &bytes)?;
    }
    Ok(())
}
