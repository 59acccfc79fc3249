// The replies to the lines of a script.
use node_layout::{Damage, PathText};
use pf_io::{Bytes, Text};

/// The reply to a line, or to the closing of a seat after the last line.
#[derive(Drop)]
pub enum Reply {
    /// Nothing is said.
    None,
    Created,
    /// A protected file was opened, of so many bytes.
    Opened { size: u64 },
    /// A file of the manifest was opened, of so many bytes. `logged` is its uri, where the policy has it logged.
    Viewed { size: u64, logged: Option<Text> },
    /// The bytes that a read gave.
    Given { bytes: Bytes },
    /// So many bytes were written, and what was there was flushed before where the line says so.
    Written { count: u64, flushed: bool },
    /// The content has this size.
    Sized { size: u64 },
    Flushed,
    Moved,
    /// The next nonce.
    Drawn { nonce: [u8; 32] },
    /// The seat is empty. What was not flushed is lost where the seat was broken.
    Closed { lost: bool },
    /// A rule refuses.
    Refused { why: Why },
    /// A node of a protected file does not pass its check.
    DamagedNode { damage: Damage },
    /// A chunk of a trusted file has another sum than at its opening.
    DamagedChunk { chunk: u32 },
    /// A call of the host failed.
    HostFault,
    /// No random word came.
    WordsFault,
}

/// Why a line is refused.
#[derive(Drop)]
pub enum Why {
    /// The seat holds a file.
    SeatBusy,
    /// The seat holds none.
    SeatEmpty,
    /// Another seat has the name.
    NameBusy,
    /// The text is no name that a protected file may have.
    BadName,
    /// The file does not begin as a protected file does.
    NotProtected,
    /// More bytes are asked for than one step may have.
    TooLong,
    /// The content would pass 2^32 bytes.
    TooLarge,
    /// The seat's file is only read.
    ReadOnly,
    /// A fault broke the seat.
    Broken,
    /// The new name has a file.
    TargetExists,
    /// The session has no manifest.
    NoManifest,
    /// The path is none of the manifest's.
    BadPath,
    /// The path leads to no file of the host.
    NoHostFile,
    /// The name has a file.
    Exists { name: Text },
    /// The name has none.
    NotFound { name: Text },
    /// An update of the file is pending.
    Unbuilt,
    /// The file has another version than 1.0.
    BadVersion { major: u8, minor: u8 },
    /// The file is stored under another path.
    WrongPath { stored: PathText },
    /// The write would leave a gap behind the content, which has this size.
    PastEnd { size: u64 },
    /// The policy denies the file.
    Denied { uri: Text },
    /// The manifest has no sum of the file.
    NoSum { uri: Text },
    /// The manifest has no key of that name.
    NoKey { name: Text },
    /// The file has another sum than the listed one.
    WrongSum { found: [u8; 32] },
}
