// Named files in memory, with what a crash needs of them.
ghost use Rattle.std.specs.Prelude.{◌≡◌, ◌++◌, ◌∷◌, ◌≤◌, [], Some, None, List, ℕ, not, filter, length, option_map, IfOk, OnOk, OnErr, vec_len, vec_capacity};
ghost use Rattle.pf_io.specs.Steps.{overwrite};
ghost use Rattle.pf_io.specs.Host.{ReadsFrom, KeepsRest, length_of, contents};
ghost use Rattle.pf_io.specs.Replay.{unkept, write_stored, cut_stored, settled_stored};

use crate::tear::Tear;
use std::alloc::{AllocError, Global};

// What a read gives, what it gave at the last sync, and at which places a crash keeps the byte.
#[derive(Drop)]
pub(crate) struct StoredFile {
    pub(crate) bytes: Vec<u8>,
    pub(crate) synced: Vec<u8>,
    pub(crate) kept: Vec<bool>,
}

#[derive(Drop)]
pub(crate) struct Entry {
    pub(crate) name: Vec<u8>,
    pub(crate) file: StoredFile,
}

ghost use Rattle.pf_io.specs.Storage.{look, bytes_of, stored_of, named, filled, torn_bytes};

impl StoredFile {
    // A file at which nothing is pending.
    pub(crate) fn settled(alloc: Global, bytes: &[u8]) -> Result<Self, AllocError>
        ensures { IfOk result (λ file. stored_of file ≡ settled_stored bytes.now) }
    {
        let mut kept = Vec::new(alloc);
        kept.resize(bytes.len(), true)?;
        Ok(StoredFile {
            bytes: bytes.to_vec(alloc)?,
            synced: bytes.to_vec(alloc)?,
            kept,
        })
    }

    pub(crate) fn written(&self, alloc: Global, at: usize, from: &[u8]) -> Result<Self, AllocError>
        ensures { IfOk result (λ file. stored_of file ≡ write_stored at from.now (stored_of self.now)) }
    {
        Ok(StoredFile {
            bytes: overwritten(alloc, &self.bytes, at, from)?,
            synced: self.synced.as_slice().to_vec(alloc)?,
            kept: unkept_from(alloc, &self.kept, at, from.len())?,
        })
    }

    pub(crate) fn shortened(&self, alloc: Global, len: usize) -> Result<Self, AllocError>
        ensures { IfOk result (λ file. stored_of file ≡ cut_stored len (stored_of self.now)) }
    {
        let mut file = self.copied(alloc)?;
        file.bytes.truncate(len);
        file.kept.truncate(len);
        Ok(file)
    }

    pub(crate) fn copied(&self, alloc: Global) -> Result<Self, AllocError>
        ensures { IfOk result (λ file. stored_of file ≡ stored_of self.now) }
    {
        Ok(StoredFile {
            bytes: self.bytes.as_slice().to_vec(alloc)?,
            synced: self.synced.as_slice().to_vec(alloc)?,
            kept: self.kept.as_slice().to_vec(alloc)?,
        })
    }

    // What a crash leaves of the file.
    pub(crate) fn torn(&self, alloc: Global, tear: Tear) -> Result<Vec<u8>, AllocError>
        ensures { IfOk result (λ bytes. bytes.items ≡ torn_bytes tear (stored_of self.now)) }
    {
        match tear {
            Tear::Kept => self.bytes.as_slice().to_vec(alloc),
            Tear::Lost => self.synced.as_slice().to_vec(alloc),
            Tear::Fill(byte) => filled_with(alloc, &self.bytes, &self.kept, byte),
        }
    }
}

// The bytes with others put at a place.
fn overwritten(alloc: Global, old: &[u8], at: usize, from: &[u8]) -> Result<Vec<u8>, AllocError>
    ensures { IfOk result (λ bytes. bytes.items ≡ overwrite at from.now old.now) }
{
    if from.is_empty() {
        return old.to_vec(alloc);
    }
    let Some(end) = at.checked_add(from.len()) else {
        return Err(AllocError);
    };
    let mut bytes = old.to_vec(alloc)?;
    bytes.resize(at, 0)?;
    bytes.extend_from_slice(from)?;
    bytes.extend_from_slice(&old[end.min(old.len())..])?;
    Ok(bytes)
}

// The marks without those of `n` places from `at` on.
fn unkept_from(alloc: Global, kept: &[bool], at: usize, n: usize) -> Result<Vec<bool>, AllocError>
    ensures { IfOk result (λ marks. marks.items ≡ unkept at n kept.now) }
{
    if n == 0 {
        return kept.to_vec(alloc);
    }
    let Some(end) = at.checked_add(n) else {
        return Err(AllocError);
    };
    let mut marks = kept.to_vec(alloc)?;
    marks.truncate(at);
    marks.resize(end, false)?;
    marks.extend_from_slice(&kept[end.min(kept.len())..])?;
    Ok(marks)
}

// The bytes with this one at each place that is not kept.
fn filled_with(alloc: Global, bytes: &[u8], kept: &[bool], byte: u8) -> Result<Vec<u8>, AllocError>
    ensures { IfOk result (λ all. all.items ≡ filled byte bytes.now kept.now) }
{
    bytes
        .iter()
        .zip(kept.iter())
        .map(|(old, kept)| if *kept { *old } else { byte })
        .collect(alloc)
}

// The file of a name.
pub(crate) fn find<'a>(files: &'a [Entry], name: &[u8]) -> Option<&'a StoredFile>
    ensures { option_map (λ file. stored_of file.now) result ≡ look files.now name.now }
{
    files
        .iter()
        .find(|entry| entry.name.as_slice() == name)
        .map(|entry| &entry.file)
}

// Copies what the bytes have from a place on, as far as the buffer and they reach.
pub(crate) fn copy_from(bytes: &[u8], at: usize, to: &mut [u8]) -> usize
    ensures reads { ReadsFrom at result to.new bytes.now }
    ensures rest { KeepsRest result to.old to.new }
{
    if at >= bytes.len() {
        return 0;
    }
    let rest = &bytes[at..];
    let n = rest.len().min(to.len());
    to[..n].copy_from_slice(&rest[..n]);
    n
}

pub(crate) fn len_of(files: &[Entry], name: &[u8]) -> Option<u64>
    ensures { result ≡ length_of (bytes_of (look files.now name.now)) }
{
    match find(files, name) {
        Some(file) => Some(file.bytes.len() as u64),
        None => None,
    }
}

pub(crate) fn read_from(files: &[Entry], name: &[u8], at: usize, to: &mut [u8]) -> usize
    ensures reads { ReadsFrom at result to.new (contents (bytes_of (look files.now name.now))) }
    ensures rest { KeepsRest result to.old to.new }
{
    match find(files, name) {
        Some(file) => copy_from(&file.bytes, at, to),
        None => 0,
    }
}

pub(crate) fn remove_all(files: &mut Vec<Entry>, name: &[u8])
    ensures filtered { files.new.items ≡ filter (λ entry. not (named name.now entry)) files.old.items }
    ensures bound { vec_len files.new ≤ vec_len files.old }
    ensures capacity { vec_capacity files.new ≡ vec_capacity files.old }
{
    files.retain(
        |entry: &Entry| -> bool
            ensures { result ≡ not (named name.entry.now entry.now) }
        { entry.name.as_slice() != name },
    );
}
