// Files of the system: how they are looked at, opened and locked.
use std::fs::{self, File, Metadata, OpenOptions, TryLockError};
use std::io::{self, ErrorKind};
use std::os::fd::AsRawFd;
use std::os::unix::fs::{MetadataExt, OpenOptionsExt};
use std::rt::Files;

// The system's number for a file system that has no locks left to give, as one over a network without them.
const NO_LOCKS: i32 = 37;

// Standard input, output and error have the numbers below this one.
const STREAMS: i32 = 3;

/// Which file of the system it is, whatever its names.
#[derive(Clone, Copy, PartialEq, Eq)]
pub(crate) struct FileId {
    device: u64,
    inode: u64,
}

/// The length and the time of the last change, which tell two versions of a file apart.
#[derive(Clone, Copy, PartialEq, Eq)]
pub(crate) struct Version {
    len: u64,
    seconds: i64,
    nanoseconds: i64,
}

pub(crate) fn id_of(metadata: &Metadata) -> FileId {
    FileId {
        device: metadata.dev(),
        inode: metadata.ino(),
    }
}

pub(crate) fn version_of(metadata: &Metadata) -> Version {
    Version {
        len: metadata.len(),
        seconds: metadata.ctime(),
        nanoseconds: metadata.ctime_nsec(),
    }
}

// The name is absent, or a folder on the way to it is.
fn is_absent(error: &io::Error) -> bool {
    matches!(error.kind(), ErrorKind::NotFound | ErrorKind::NotADirectory)
}

// A folder, a device, a pipe or a socket is no plain file.
fn check_plain(metadata: &Metadata) -> io::Result<()> {
    if metadata.is_file() {
        Ok(())
    } else {
        Err(ErrorKind::InvalidInput.into())
    }
}

/// What stands at a name that is to be read, through symlinks; `None` where it is absent. What is no plain file is an
/// error, before it is opened.
pub(crate) fn look_to_read<R: Files>(system: &R, name: &str) -> io::Result<Option<Metadata>> {
    match fs::metadata(system, name) {
        Ok(metadata) => {
            check_plain(&metadata)?;
            Ok(Some(metadata))
        }
        Err(error) if is_absent(&error) => Ok(None),
        Err(error) => Err(error),
    }
}

/// What stands at a name that is to be changed; `None` where it is absent. What is no plain file is an error, also a
/// symlink, and so is a file that has a second hard link.
pub(crate) fn look_to_change<R: Files>(system: &R, name: &str) -> io::Result<Option<Metadata>> {
    match fs::symlink_metadata(system, name) {
        Ok(metadata) => {
            check_plain(&metadata)?;
            if metadata.nlink() > 1 {
                return Err(ErrorKind::TooManyLinks.into());
            }
            Ok(Some(metadata))
        }
        Err(error) if is_absent(&error) => Ok(None),
        Err(error) => Err(error),
    }
}

/// An error unless this file stands at the name, to be changed.
pub(crate) fn check_name<R: Files>(system: &R, name: &str, id: FileId) -> io::Result<()> {
    match look_to_change(system, name)? {
        Some(metadata) if id_of(&metadata) == id => Ok(()),
        _ => Err(ErrorKind::StaleNetworkFileHandle.into()),
    }
}

// A lock that another run holds is an error. A file system without locks is none.
fn granted(outcome: Result<(), TryLockError>) -> io::Result<()> {
    match outcome {
        Ok(()) => Ok(()),
        Err(TryLockError::WouldBlock) => Err(ErrorKind::ResourceBusy.into()),
        Err(TryLockError::Error(error)) => {
            if error.kind() == ErrorKind::Unsupported || error.raw_os_error() == Some(NO_LOCKS) {
                return Ok(());
            }
            Err(error)
        }
    }
}

/// The file under a number that no standard stream has. Where such a stream is closed, the system gives its number to
/// the next file, and what is written to the stream would go into the file.
pub(crate) fn beside_streams(file: File) -> io::Result<File> {
    if file.as_raw_fd() >= STREAMS {
        return Ok(file);
    }
    let other = file.try_clone()?;
    if other.as_raw_fd() < STREAMS {
        return Err(ErrorKind::Other.into());
    }
    Ok(other)
}

/// Opens a file that was looked at, and locks it against changes by other runs.
pub(crate) fn open_to_read<R: Files<File = File>>(system: &R, name: &str) -> io::Result<File> {
    let file = beside_streams(File::open(system, name)?)?;
    check_plain(&file.metadata()?)?;
    granted(file.try_lock_shared())?;
    Ok(file)
}

fn open_both<R: Files<File = File>>(system: &R, name: &str) -> io::Result<File> {
    beside_streams(
        OpenOptions::new()
            .read(true)
            .write(true)
            .open(system, name)?,
    )
}

/// Opens a file that was looked at, and locks it against all other runs. It must still stand at the name then.
pub(crate) fn open_to_change<R: Files<File = File>>(system: &R, name: &str) -> io::Result<File> {
    let file = open_both(system, name)?;
    granted(file.try_lock())?;
    check_name(system, name, id_of(&file.metadata()?))?;
    Ok(file)
}

/// Makes a file at a name that is absent, for the owner alone, and locks it.
pub(crate) fn open_new<R: Files<File = File>>(system: &R, name: &str) -> io::Result<File> {
    let mut options = OpenOptions::new();
    options.read(true).write(true).create_new(true).mode(0o600);
    let file = beside_streams(options.open(system, name)?)?;
    granted(file.try_lock())?;
    check_name(system, name, id_of(&file.metadata()?))?;
    Ok(file)
}

/// Whether this file stands at the name, also beside other names.
pub(crate) fn is_same<R: Files>(system: &R, name: &str, id: FileId) -> io::Result<bool> {
    Ok(id_of(&fs::symlink_metadata(system, name)?) == id)
}

/// Opens a plain file that no run has locked, where the file system has locks.
pub(crate) fn open_unused<R: Files<File = File>>(system: &R, name: &str) -> io::Result<File> {
    check_plain(&fs::symlink_metadata(system, name)?)?;
    let file = open_both(system, name)?;
    file.try_lock()?;
    Ok(file)
}

/// The part of a name before its last one, with the slash.
pub(crate) fn folder_of(name: &str) -> &str {
    match name.rsplit_once('/') {
        Some(("", _)) => "/",
        Some((folder, _)) => folder,
        None => ".",
    }
}

/// Makes a change of names in the folder of a file last. What is no folder is an error, before it is opened.
pub(crate) fn sync_folder<R: Files<File = File>>(system: &R, name: &str) -> io::Result<()> {
    let folder = folder_of(name);
    if !fs::metadata(system, folder)?.is_dir() {
        return Err(ErrorKind::NotADirectory.into());
    }
    File::open(system, folder)?.sync_all()
}
