// What a manifest lists.
use pf_io::Text;

/// What is done with a file that is in neither list.
#[derive(Clone, Copy, PartialEq, Eq, Drop)]
pub enum Policy {
    /// It is denied.
    Strict,
    /// It is allowed, and that is logged.
    AllowAllButLog,
}

/// A trusted file.
#[derive(Drop)]
pub struct Trusted {
    /// The uri as it stands at the first place of this file.
    pub uri: Text,
    /// The normal form of what follows `file:` in it.
    pub name: Text,
    /// The SHA-256 of the file, where the manifest has it.
    pub sum: Option<[u8; 32]>,
}

/// How a mount gives its files.
#[derive(Clone, Copy, PartialEq, Eq, Drop)]
pub enum MountKind {
    /// Files of the host.
    Chroot,
    /// Protected files of the host.
    Encrypted,
    /// No files of the host.
    Other,
}

/// A place in the tree of paths, and where its files come from.
#[derive(Drop)]
pub struct Mount {
    /// How it gives its files.
    pub kind: MountKind,
    /// The normal form of its path, which is absolute.
    pub path: Text,
    /// What follows `file:` in its uri, as it stands there. `None` where the uri is absent or another.
    pub name: Option<Text>,
    /// The name of its key.
    pub key_name: Text,
}
