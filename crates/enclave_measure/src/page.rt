// A page of an enclave.
use pf_io::Text;

/// What the enclave may do with a page.
#[derive(Clone, Copy, Debug, PartialEq, Eq)]
pub struct Permissions {
    /// Whether it may read the page (R).
    pub read: bool,
    /// Whether it may write the page (W); then it may read it too.
    pub write: bool,
    /// Whether it may execute the page (X).
    pub execute: bool,
}

/// The type of a page.
#[derive(Clone, Copy, Debug, PartialEq, Eq)]
pub enum PageType {
    /// A thread control structure.
    Tcs,
    /// A regular page.
    Reg,
}

/// What the 4096 bytes of a page come from.
#[derive(Drop)]
pub enum Source {
    /// Zeros.
    Zero,
    /// The bytes of a host file from `at` on, and zeros past its end.
    File { name: Text, at: u32 },
}

/// A page of an enclave.
#[derive(Drop)]
pub struct Page {
    /// Its place in the enclave, in bytes.
    pub offset: u64,
    /// What the enclave may do with it; nothing, for a thread control structure.
    pub permissions: Permissions,
    /// Whether it is a thread control structure or a regular page.
    pub page_type: PageType,
    /// Whether its bytes are measured.
    pub measured: bool,
    /// What its bytes come from.
    pub source: Source,
}
