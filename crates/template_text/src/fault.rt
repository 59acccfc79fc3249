// Why a template is not rendered.
ghost use Rattle.std.specs.Prelude.{◌≡◌};
ghost use Rattle.template_text.specs.declared.fault.RenderFault.TheVariants.{Memory as NoMemory};

use pf_io::{Memory, Text};
use std::alloc::{AllocError, AllocFailed};

/// Why a template is not rendered. `at` is the byte place of the part that is refused: of its opening mark, or of the
/// first byte of copied text.
#[derive(Drop)]
pub enum RenderFault {
    /// The mark that closes it, or the `endraw`, is absent.
    Unclosed { at: usize },
    /// What stands between `{{` and `}}` is no name.
    BadName { at: usize },
    /// No pair has the name.
    Unknown { at: usize, name: Text },
    /// A statement is another than `raw`.
    Statement { at: usize },
    /// What is written passes 16,777,216 bytes.
    TooLong { at: usize },
    /// There is no memory left.
    Memory,
}

impl From<Memory> for RenderFault {
    ghost from_gives = { λ _ fault. fault ≡ NoMemory };

    fn from(_: Memory) -> Self {
        RenderFault::Memory
    }
}

impl From<AllocError> for RenderFault {
    ghost from_gives = { λ _ fault. fault ≡ NoMemory };

    fn from(_: AllocError) -> Self {
        RenderFault::Memory
    }
}
