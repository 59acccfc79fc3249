// Files that are made beside a name before they get it.
use crate::files::{FileId, check_name, id_of, is_same, open_new, open_unused};
use std::alloc::Global;
use std::fs::{self, File};
use std::io::{self, ErrorKind};
use std::rt::Files;

// How many names are tried.
const MOST_BESIDE: u64 = 256;

/// An empty file that has a name of its own, and this run's lock.
#[derive(Drop)]
pub(crate) struct NewFile {
    name: String,
    pub(crate) id: FileId,
    pub(crate) file: File,
}

// A name in the folder of another, which does not depend on the length of its last part.
fn beside(alloc: Global, name: &str, number: u64) -> io::Result<String> {
    match name.rsplit_once('/') {
        Some((folder, _)) => Ok(format!(in alloc; "{folder}/.pf_tool-{number}")?),
        None => Ok(format!(in alloc; ".pf_tool-{number}")?),
    }
}

// Removes what a run left that ended between making a file and giving it its name: an empty file that nobody holds.
fn remove_leftover<R: Files<File = File>>(system: &R, name: &str) -> io::Result<()> {
    let file = open_unused(system, name)?;
    let metadata = file.metadata()?;
    if metadata.len() == 0 && is_same(system, name, id_of(&metadata))? {
        fs::remove_file(system, name)?;
    }
    Ok(())
}

/// Makes a file in the folder of a name.
pub(crate) fn open_beside<R: Files<File = File>>(
    system: &R,
    alloc: Global,
    name: &str,
) -> io::Result<NewFile> {
    for number in 0..MOST_BESIDE {
        let name = beside(alloc, name, number)?;
        match open_new(system, name.as_str()) {
            Ok(file) => {
                let id = id_of(&file.metadata()?);
                return Ok(NewFile { name, id, file });
            }
            Err(error) => match error.kind() {
                ErrorKind::AlreadyExists => {
                    let _ = remove_leftover(system, name.as_str());
                }
                // Another run took it for a leftover.
                ErrorKind::ResourceBusy | ErrorKind::StaleNetworkFileHandle => {}
                _ => return Err(error),
            },
        }
    }
    Err(ErrorKind::AlreadyExists.into())
}

impl NewFile {
    /// Gives the file a name that is absent, where it still is; then the file's own name is gone. A file system without
    /// hard links can only rename.
    pub(crate) fn link<R: Files<File = File>>(&self, system: &R, name: &str) -> io::Result<()> {
        self.check(system)?;
        match fs::hard_link(system, self.name.as_str(), name) {
            Ok(()) => fs::remove_file(system, self.name.as_str()),
            Err(error) => match error.kind() {
                ErrorKind::Unsupported | ErrorKind::PermissionDenied => {
                    fs::rename(system, self.name.as_str(), name)
                }
                _ => Err(error),
            },
        }
    }

    /// Gives the file a name at which another one stands.
    pub(crate) fn replace<R: Files<File = File>>(&self, system: &R, name: &str) -> io::Result<()> {
        self.check(system)?;
        fs::rename(system, self.name.as_str(), name)
    }

    // Writes the file down, and sees that it stands at its own name.
    fn check<R: Files<File = File>>(&self, system: &R) -> io::Result<()> {
        self.file.sync_all()?;
        check_name(system, self.name.as_str(), self.id)
    }

    /// Removes the file, which got no other name.
    pub(crate) fn remove<R: Files<File = File>>(&self, system: &R) -> io::Result<()> {
        check_name(system, self.name.as_str(), self.id)?;
        fs::remove_file(system, self.name.as_str())
    }
}
