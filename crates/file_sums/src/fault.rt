// Why files are not summed.
ghost use Rattle.std.specs.Prelude.{◌≡◌};
ghost use Rattle.file_sums.specs.declared.fault.SumFault.TheVariants.{Host as HostFailed};
ghost use Rattle.file_sums.specs.declared.fault.AllFault.TheVariants.{Memory as NoMemory};

use pf_io::{HostFault, Text};
use std::alloc::{AllocError, AllocFailed};
use thiserror::Error;

/// Why a file is not summed.
#[derive(Clone, Copy, Debug, PartialEq, Eq, Error)]
pub enum SumFault {
    /// No file has the name.
    #[error("no file has the name")]
    NotFound,
    /// The host gave more than 2^32 bytes.
    #[error("the file has more than 2^32 bytes")]
    TooLarge,
    /// A call of the host failed.
    #[error("a call of the host failed")]
    Host,
}

impl From<HostFault> for SumFault {
    ghost from_gives = { λ _ fault. fault ≡ HostFailed };

    fn from(_: HostFault) -> Self {
        SumFault::Host
    }
}

/// Why the files of a manifest are not summed.
#[derive(Debug, Drop, Error)]
pub enum AllFault {
    /// The file of this name is not summed.
    #[error("a file is not summed: {why}")]
    At { name: Text, why: SumFault },
    /// There is no memory left.
    #[error("there is no memory left")]
    Memory,
}

impl From<AllocError> for AllFault {
    ghost from_gives = { λ _ fault. fault ≡ NoMemory };

    fn from(_: AllocError) -> Self {
        AllFault::Memory
    }
}

impl<T: Drop> From<AllocFailed<T>> for AllFault {
    ghost from_gives = { λ _ fault. fault ≡ NoMemory };

    fn from(_: AllocFailed<T>) -> Self {
        AllFault::Memory
    }
}
