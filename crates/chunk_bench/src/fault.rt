// Why a file is not read whole.
ghost use Rattle.std.specs.Prelude.{◌≡◌};
ghost use Rattle.chunk_bench.specs.declared.fault.FileFault.TheVariants.{Opening as AtOpening, Reading as AtReading};

use trusted_chunks::{ChunkFault, TrustFault};

/// Why a file is not read whole.
#[derive(Clone, Copy, Debug, PartialEq, Eq)]
pub enum FileFault {
    /// It is not opened.
    Opening(TrustFault),
    /// It was opened, and a read failed.
    Reading(ChunkFault),
}

impl From<TrustFault> for FileFault {
    ghost from_gives = { λ cause fault. fault ≡ AtOpening cause };

    fn from(cause: TrustFault) -> Self {
        FileFault::Opening(cause)
    }
}

impl From<ChunkFault> for FileFault {
    ghost from_gives = { λ cause fault. fault ≡ AtReading cause };

    fn from(cause: ChunkFault) -> Self {
        FileFault::Reading(cause)
    }
}
