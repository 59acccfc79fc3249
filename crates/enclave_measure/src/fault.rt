// Why a layout is not read, and why it is not measured.
ghost use Rattle.std.specs.Prelude.{◌≡◌};
ghost use Rattle.enclave_measure.specs.declared.fault.LayoutFault.TheVariants.{Memory as NoMemory};
ghost use Rattle.enclave_measure.specs.declared.fault.MeasureFault.TheVariants.{Host as HostFailed};

use pf_io::{HostFault, Memory};
use std::alloc::{AllocError, AllocFailed};
use thiserror::Error;

/// Why a text is no layout. `line` is the number of the line that is refused, counted from 1.
#[derive(Debug, Drop, Error)]
pub enum LayoutFault {
    /// The line is of another form, or has fields that no page may have; or there is no line `enclave`, and the number
    /// is that of all lines and 1.
    #[error("line {line} is no line of a layout")]
    BadLine { line: u32 },
    /// The size is no power of two from 0x1000 to 2^40.
    #[error("line {line} has no size of an enclave")]
    BadSize { line: u32 },
    /// The page lies past the enclave's end.
    #[error("the page of line {line} lies past the enclave's end")]
    OutOfRange { line: u32 },
    /// An earlier page has the same offset.
    #[error("the page of line {line} has the offset of an earlier one")]
    Repeated { line: u32 },
    /// There is no memory left.
    #[error("there is no memory left")]
    Memory,
}

impl From<Memory> for LayoutFault {
    ghost from_gives = { λ _ fault. fault ≡ NoMemory };

    fn from(_: Memory) -> Self {
        LayoutFault::Memory
    }
}

impl From<AllocError> for LayoutFault {
    ghost from_gives = { λ _ fault. fault ≡ NoMemory };

    fn from(_: AllocError) -> Self {
        LayoutFault::Memory
    }
}

impl<T: Drop> From<AllocFailed<T>> for LayoutFault {
    ghost from_gives = { λ _ fault. fault ≡ NoMemory };

    fn from(_: AllocFailed<T>) -> Self {
        LayoutFault::Memory
    }
}

/// Why a layout is not measured.
#[derive(Debug, Drop, Error)]
pub enum MeasureFault {
    /// The host has no file of the name that the page has. Pages are counted from 0.
    #[error("the file of page {page} is absent")]
    NotFound { page: usize },
    /// A call of the host failed.
    #[error("a call of the host failed")]
    Host,
}

impl From<HostFault> for MeasureFault {
    ghost from_gives = { λ _ fault. fault ≡ HostFailed };

    fn from(_: HostFault) -> Self {
        MeasureFault::Host
    }
}
