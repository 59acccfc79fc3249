// The lines of a script.
use pf_io::{Bytes, Text};

/// One line of a script. A seat is a number below 8; places, counts and sizes are in bytes.
#[derive(Drop)]
pub enum ScriptLine {
    /// An empty line, or a comment, which begins with `#`.
    Blank,
    /// `create SEAT NAME`: a new protected file.
    Create {
        seat: u8,
        name: Text,
    },
    /// `open SEAT NAME`: a protected file that is there.
    Open {
        seat: u8,
        name: Text,
    },
    /// `view SEAT PATH`: a file of the manifest.
    View {
        seat: u8,
        path: Text,
    },
    /// `read SEAT AT COUNT`.
    Read {
        seat: u8,
        at: u64,
        count: u64,
    },
    /// `write SEAT AT HEX`.
    Write {
        seat: u8,
        at: u64,
        bytes: Bytes,
    },
    /// `fill SEAT AT COUNT BYTE`: so many copies of a byte.
    Fill {
        seat: u8,
        at: u64,
        count: u64,
        byte: u8,
    },
    /// `size SEAT N`: the content is cut or grows to this size.
    Size {
        seat: u8,
        size: u64,
    },
    /// `flush SEAT`.
    Flush {
        seat: u8,
    },
    /// `move SEAT NAME`: the file gets another name.
    Move {
        seat: u8,
        name: Text,
    },
    /// `draw SEAT`: the next nonce.
    Draw {
        seat: u8,
    },
    /// `close SEAT`.
    Close {
        seat: u8,
    },
}
