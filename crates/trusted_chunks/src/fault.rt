// Why a call of a trusted file ends early.
ghost use Rattle.std.specs.Prelude.{◌≡◌};
ghost use Rattle.trusted_chunks.specs.declared.fault.TrustFault.TheVariants.{Host as OpenHost, Memory as OpenMemory};
ghost use Rattle.trusted_chunks.specs.declared.fault.ChunkFault.TheVariants.{Host as ReadHost, Memory as ReadMemory};

use pf_io::{HostFault, Memory};
use std::alloc::{AllocError, AllocFailed};

/// Why a trusted file is not opened.
#[derive(Clone, Copy, Debug, PartialEq, Eq)]
pub enum TrustFault {
    /// No file has the name.
    NotFound,
    /// The host gave more than 2^32 bytes.
    TooLarge,
    /// The bytes have another sum, which is given.
    WrongSum { found: [u8; 32] },
    /// A call of the host failed.
    Host,
    /// There is no memory.
    Memory,
}

/// Why a trusted file is not read.
#[derive(Clone, Copy, Debug, PartialEq, Eq)]
pub enum ChunkFault {
    /// The chunk of this number, from 0, has changed since the opening.
    Damaged { chunk: u32 },
    /// A call of the host failed.
    Host,
    /// There is no memory.
    Memory,
}

impl From<HostFault> for TrustFault {
    ghost from_gives = { λ _ fault. fault ≡ OpenHost };

    fn from(_: HostFault) -> Self {
        TrustFault::Host
    }
}

impl From<Memory> for TrustFault {
    ghost from_gives = { λ _ fault. fault ≡ OpenMemory };

    fn from(_: Memory) -> Self {
        TrustFault::Memory
    }
}

impl From<HostFault> for ChunkFault {
    ghost from_gives = { λ _ fault. fault ≡ ReadHost };

    fn from(_: HostFault) -> Self {
        ChunkFault::Host
    }
}

impl From<AllocError> for ChunkFault {
    ghost from_gives = { λ _ fault. fault ≡ ReadMemory };

    fn from(_: AllocError) -> Self {
        ChunkFault::Memory
    }
}

impl From<AllocError> for TrustFault {
    ghost from_gives = { λ _ fault. fault ≡ OpenMemory };

    fn from(_: AllocError) -> Self {
        TrustFault::Memory
    }
}

impl<T: Drop> From<AllocFailed<T>> for TrustFault {
    ghost from_gives = { λ _ fault. fault ≡ OpenMemory };

    fn from(_: AllocFailed<T>) -> Self {
        TrustFault::Memory
    }
}

impl<T: Drop> From<AllocFailed<T>> for ChunkFault {
    ghost from_gives = { λ _ fault. fault ≡ ReadMemory };

    fn from(_: AllocFailed<T>) -> Self {
        ChunkFault::Memory
    }
}
