// Changes of real files.
use crate::files::{FileId, check_name, sync_folder};
use crate::handles::Handles;
use crate::new_files::{NewFile, open_beside};
use std::alloc::Global;
use std::fs::{self, File, Metadata, Permissions};
use std::io::{self, ErrorKind};
use std::os::unix::fs::{FileExt, MetadataExt, PermissionsExt, fchown};
use std::rt::Files;

// The bits of a mode that say who may read, write and run a file.
const RIGHTS: u32 = 0o777;

fn absent() -> io::Error {
    ErrorKind::NotFound.into()
}

/// Puts bytes into a file. An absent name is an error.
pub(crate) fn write_file<R: Files<File = File>>(
    system: &R,
    handles: &mut Handles,
    name: &str,
    at: u64,
    from: &[u8],
) -> io::Result<()> {
    let Some(id) = handles.hold_to_change(system, name)? else {
        return Err(absent());
    };
    handles.file(id)?.write_all_at(from, at)
}

/// Drops the bytes of a file from `len` on. An absent name is an error.
pub(crate) fn cut_file<R: Files<File = File>>(
    system: &R,
    handles: &mut Handles,
    name: &str,
    len: u64,
) -> io::Result<()> {
    let Some(id) = handles.hold_to_change(system, name)? else {
        return Err(absent());
    };
    let file = handles.file(id)?;
    if len < file.metadata()?.len() {
        file.set_len(len)?;
    }
    Ok(())
}

// Writes down what was changed, by the handle that wrote where this run has one. The system may drop it where that fails,
// and say so only once.
fn sync_held(handles: &mut Handles, id: FileId) -> io::Result<()> {
    let outcome = handles.file(id)?.sync_all();
    if outcome.is_err() {
        handles.lose(id);
    }
    outcome
}

/// Writes a file down. Where that fails, no later change or sync of it is tried.
pub(crate) fn sync_file<R: Files<File = File>>(
    system: &R,
    handles: &mut Handles,
    name: &str,
) -> io::Result<()> {
    match handles.hold_to_sync(system, name)? {
        Some(id) => sync_held(handles, id),
        None => Ok(()),
    }
}

// Gives a new file a name.
fn place<R: Files<File = File>>(
    system: &R,
    handles: &mut Handles,
    new: &NewFile,
    name: &str,
) -> io::Result<()> {
    match handles.hold_to_change(system, name)? {
        Some(old) => {
            new.replace(system, name)?;
            handles.changed.forget_id(old);
            Ok(())
        }
        None => new.link(system, name),
    }
}

/// Makes the name an empty file, which this run has locked before it gets the name.
pub(crate) fn make_file<R: Files<File = File>>(
    system: &R,
    alloc: Global,
    handles: &mut Handles,
    name: &str,
) -> io::Result<()> {
    let new = open_beside(system, alloc, name)?;
    match place(system, handles, &new, name) {
        Ok(()) => {
            let NewFile { id, file, .. } = new;
            handles.changed.keep(name, id, file)?;
            sync_folder(system, name)
        }
        Err(error) => {
            let _ = new.remove(system);
            Err(error)
        }
    }
}

// Gives a file that takes the place of another one its rights, and its owner and group where the system lets us. Answers
// whether anything was to be given.
fn take_rights(file: &File, old: &Metadata) -> io::Result<bool> {
    let new = file.metadata()?;
    let is_owned = new.uid() == old.uid() && new.gid() == old.gid();
    if !is_owned && fchown(file, Some(old.uid()), Some(old.gid())).is_err() {
        let _ = fchown(file, None, Some(old.gid()));
    }
    let rights = old.mode() & RIGHTS;
    let is_ruled = new.mode() & RIGHTS == rights;
    if !is_ruled {
        file.set_permissions(Permissions::from_mode(rights))?;
    }
    Ok(!is_owned || !is_ruled)
}

/// Gives the file of `from` to the name `to`. An absent `from` is an error.
pub(crate) fn swap_file<R: Files<File = File>>(
    system: &R,
    alloc: Global,
    handles: &mut Handles,
    from: &str,
    to: &str,
) -> io::Result<()> {
    let Some(id) = handles.hold_to_change(system, from)? else {
        return Err(absent());
    };
    let old = handles.hold_to_change(system, to)?;
    if old == Some(id) {
        return Ok(());
    }
    if let Some(old) = old {
        let metadata = handles.file(old)?.metadata()?;
        if take_rights(handles.file(id)?, &metadata)? {
            sync_held(handles, id)?;
        }
    }
    let name = String::from_str(alloc, to)?;
    check_name(system, from, id)?;
    fs::rename(system, from, to)?;
    if let Some(old) = old {
        handles.changed.forget_id(old);
    }
    handles.changed.rename(id, name);
    sync_folder(system, from)?;
    sync_folder(system, to)
}

/// Makes the name absent.
pub(crate) fn remove_file<R: Files<File = File>>(
    system: &R,
    handles: &mut Handles,
    name: &str,
) -> io::Result<()> {
    if let Some(id) = handles.hold_to_change(system, name)? {
        fs::remove_file(system, name)?;
        handles.changed.forget_id(id);
    }
    sync_folder(system, name)
}
