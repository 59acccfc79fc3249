// What may fail outside.
use std::alloc::{AllocError, AllocFailed};

/// There is no memory left.
#[derive(Clone, Copy, Debug, PartialEq, Eq)]
pub struct Memory;

/// A call of a host failed.
#[derive(Clone, Copy, Debug, PartialEq, Eq)]
pub struct HostFault;

/// A read or a write of a stream failed.
#[derive(Clone, Copy, Debug, PartialEq, Eq)]
pub struct StreamFault;

/// No random word came.
#[derive(Clone, Copy, Debug, PartialEq, Eq)]
pub struct WordsFault;

impl From<AllocError> for Memory {
    fn from(_: AllocError) -> Self {
        Memory
    }
}

impl<T: Drop> From<AllocFailed<T>> for Memory {
    fn from(_: AllocFailed<T>) -> Self {
        Memory
    }
}
