// Why a line is not read.
ghost use Rattle.std.specs.Prelude.{◌≡◌};
ghost use Rattle.pf_script.specs.declared.fault.LineFault.TheVariants.{Memory as NoMemory};

use pf_io::Memory;

/// Why the bytes of a line are not read.
#[derive(Clone, Copy, Debug, PartialEq, Eq)]
pub enum LineFault {
    /// The bytes are no line of a script, or more than 131,072.
    BadLine,
    /// There is no memory left.
    Memory,
}

impl From<Memory> for LineFault {
    ghost from_gives = { λ _ fault. fault ≡ NoMemory };

    fn from(_: Memory) -> Self {
        LineFault::Memory
    }
}
