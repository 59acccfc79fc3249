// Files that a run keeps open, and locked.
ghost use Rattle.std.specs.Prelude.{◌≡◌, [], not, find, filter, option_map, bytes_eq, string_bytes};

use crate::files::FileId;
use std::alloc::Global;
use std::fs::File;
use std::io;

/// An open file, under the name by which it was opened or which it was given since.
#[derive(Drop)]
pub(crate) struct OpenFile {
    name: String,
    pub(crate) id: FileId,
    pub(crate) file: File,
    /// A sync of it failed.
    pub(crate) is_lost: bool,
}

/// A table of open files, each under one name.
#[derive(Drop)]
pub(crate) struct OpenFiles {
    alloc: Global,
    files: Vec<OpenFile>,
}

ghost use Rattle.pf_io.specs.Table.{named};

impl OpenFiles {
    pub(crate) fn new(alloc: Global) -> Self
        ensures { result.files.items ≡ [] }
    {
        OpenFiles {
            alloc,
            files: Vec::new(alloc),
        }
    }

    pub(crate) fn find(&self, name: &str) -> Option<&OpenFile>
        ensures { option_map (λ open_file. open_file.now) result ≡ find (named name.now) self.now.files.items }
    {
        self.files.iter().find(|open| open.name.as_str() == name)
    }

    pub(crate) fn find_id(&self, id: FileId) -> Option<&OpenFile> {
        self.files.iter().find(|open| open.id == id)
    }

    /// Keeps a file open.
    pub(crate) fn keep(&mut self, name: &str, id: FileId, file: File) -> io::Result<()> {
        let name = String::from_str(self.alloc, name)?;
        let is_lost = false;
        self.files.push(OpenFile {
            name,
            id,
            file,
            is_lost,
        })?;
        Ok(())
    }

    /// Closes the file that was kept first where there are this many, except one of which a sync failed.
    pub(crate) fn make_room(&mut self, most: usize) {
        if self.files.len() < most {
            return;
        }
        let Some(first) = self.files.iter().find(|open| !open.is_lost) else {
            return;
        };
        let id = first.id;
        self.forget_id(id);
    }

    /// Closes the file of a name.
    pub(crate) fn forget(&mut self, name: &str)
        ensures { self.new.files.items ≡ filter (λ one. not (named name.now one)) self.old.files.items }
    {
        self.files.retain(
            |one: &OpenFile| -> bool
                ensures { result ≡ not (named name.entry.now one.now) }
            { one.name.as_str() != name },
        );
    }

    /// Closes a file.
    pub(crate) fn forget_id(&mut self, id: FileId) {
        self.files.retain(|one: &OpenFile| one.id != id);
    }

    /// Gives a file another name.
    pub(crate) fn rename(&mut self, id: FileId, name: String) {
        if let Some(open) = self.files.iter_mut().find(|open| open.id == id) {
            open.name = name;
        }
    }

    /// Marks a file of which a sync failed.
    pub(crate) fn lose(&mut self, id: FileId) {
        for open in self.files.iter_mut() {
            if open.id == id {
                open.is_lost = true;
            }
        }
    }
}
