// The files that a run reads and changes: each through one handle, locked against other runs.
use crate::files::{
    FileId, Version, id_of, look_to_change, look_to_read, open_to_change, open_to_read, version_of,
};
use crate::open_files::{OpenFile, OpenFiles};
use std::alloc::Global;
use std::fs::File;
use std::io::{self, ErrorKind};
use std::rt::Files;

// How many files that are only read stay open.
const MOST_READ: usize = 64;

/// The open files of a run: those that it only reads, and those that it changes, which stay open. So does one of which a
/// sync failed.
#[derive(Drop)]
pub(crate) struct Handles {
    read: OpenFiles,
    pub(crate) changed: OpenFiles,
}

// What stands at a name is no longer the file that the run has opened.
fn replaced() -> io::Error {
    ErrorKind::StaleNetworkFileHandle.into()
}

impl Handles {
    pub(crate) fn new(alloc: Global) -> Self {
        Handles {
            read: OpenFiles::new(alloc),
            changed: OpenFiles::new(alloc),
        }
    }

    /// The open file of a name.
    pub(crate) fn find(&self, name: &str) -> Option<&OpenFile> {
        match self.changed.find(name) {
            Some(open) => Some(open),
            None => self.read.find(name),
        }
    }

    fn find_id(&self, id: FileId) -> Option<&OpenFile> {
        match self.changed.find_id(id) {
            Some(open) => Some(open),
            None => self.read.find_id(id),
        }
    }

    /// The handle of a file.
    pub(crate) fn file(&self, id: FileId) -> io::Result<&File> {
        match self.find_id(id) {
            Some(open) => Ok(&open.file),
            None => Err(replaced()),
        }
    }

    // It is an error where a sync of the file failed.
    fn check_kept(&self, id: FileId) -> io::Result<()> {
        match self.find_id(id) {
            Some(open) if open.is_lost => Err(ErrorKind::Other.into()),
            _ => Ok(()),
        }
    }

    /// Marks a file of which a sync failed: no later change or sync of it is tried.
    pub(crate) fn lose(&mut self, id: FileId) {
        self.changed.lose(id);
        self.read.lose(id);
    }

    // Closes the file of a name at which it no longer stands. It is an error where this run has changed it, and where a
    // sync of it failed.
    fn let_go(&mut self, name: &str) -> io::Result<()> {
        if self.changed.find(name).is_some() {
            return Err(replaced());
        }
        match self.read.find(name) {
            Some(open) if open.is_lost => return Err(replaced()),
            _ => {}
        }
        self.read.forget(name);
        Ok(())
    }

    /// Opens the file of a name to be read, where it is not open; `None` where it is absent.
    pub(crate) fn hold_to_read<R: Files<File = File>>(
        &mut self,
        system: &R,
        name: &str,
    ) -> io::Result<Option<FileId>> {
        let Some(metadata) = look_to_read(system, name)? else {
            self.let_go(name)?;
            return Ok(None);
        };
        let id = id_of(&metadata);
        let is_moved = match self.find(name) {
            Some(open) => open.id != id,
            None => false,
        };
        if is_moved {
            self.let_go(name)?;
        }
        if self.file(id).is_ok() {
            return Ok(Some(id));
        }
        let file = open_to_read(system, name)?;
        let id = id_of(&file.metadata()?);
        self.read.make_room(MOST_READ);
        self.read.keep(name, id, file)?;
        Ok(Some(id))
    }

    /// Opens the file of a name to be changed, where it is not open so; `None` where it is absent. It is an error where
    /// another run has it open, where a sync of it failed, and where another file than before stands at the name.
    pub(crate) fn hold_to_change<R: Files<File = File>>(
        &mut self,
        system: &R,
        name: &str,
    ) -> io::Result<Option<FileId>> {
        let Some(metadata) = look_to_change(system, name)? else {
            self.let_go(name)?;
            return Ok(None);
        };
        let id = id_of(&metadata);
        match self.find(name) {
            Some(open) if open.id != id => return Err(replaced()),
            _ => {}
        }
        self.check_kept(id)?;
        if self.changed.find_id(id).is_some() {
            return Ok(Some(id));
        }
        Ok(Some(self.open_to_change(system, name, id)?))
    }

    /// Opens the file of a name to be synced, where it is not open: to be read, since a sync changes nothing. `None` where
    /// it is absent. It is an error where a sync of it failed before.
    pub(crate) fn hold_to_sync<R: Files<File = File>>(
        &mut self,
        system: &R,
        name: &str,
    ) -> io::Result<Option<FileId>> {
        let Some(id) = self.hold_to_read(system, name)? else {
            return Ok(None);
        };
        self.check_kept(id)?;
        Ok(Some(id))
    }

    // The version of a file that this run has read.
    fn version(&self, id: FileId) -> io::Result<Option<Version>> {
        match self.read.find_id(id) {
            Some(open) => Ok(Some(version_of(&open.file.metadata()?))),
            None => Ok(None),
        }
    }

    // A file that was read is closed first, since its own lock would stand in the way. What was read must still stand
    // when the new handle has its lock.
    fn open_to_change<R: Files<File = File>>(
        &mut self,
        system: &R,
        name: &str,
        id: FileId,
    ) -> io::Result<FileId> {
        let read = self.version(id)?;
        self.read.forget_id(id);
        let file = open_to_change(system, name)?;
        let metadata = file.metadata()?;
        match read {
            Some(version) if version != version_of(&metadata) => return Err(replaced()),
            _ => {}
        }
        let id = id_of(&metadata);
        self.changed.keep(name, id, file)?;
        Ok(id)
    }
}
