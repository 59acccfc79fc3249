// Why a file is not opened.
ghost use Rattle.std.specs.Prelude.{◌≡◌};
ghost use Rattle.pf_session.specs.declared.open_fault.OpenFault.TheVariants.{Host as HostFailed, Memory as MemoryFailed};

use node_layout::{Damage, PathText};
use pf_io::{HostFault, Memory};

/// Why a file is not opened. The order in which an opening refuses is that of `Session::open`; `Host` may come at any call of
/// the host.
#[derive(Drop)]
pub enum OpenFault {
    /// The name is none that a protected file may have, or the path is none that it may be stored under.
    BadName,
    /// There is no memory.
    Memory,
    /// A call of the host failed.
    Host,
    /// No file has this name.
    NotFound,
    /// The file is no protected file.
    NotProtected,
    /// Node 0 is damaged.
    Damaged(Damage),
    /// An update of the file is pending.
    Unbuilt,
    /// The file has another version than 1.0.
    BadVersion { major: u8, minor: u8 },
    /// The file is stored under another path.
    WrongPath { stored: PathText },
}

impl From<HostFault> for OpenFault {
    ghost from_gives = { λ _ fault. fault ≡ HostFailed };

    fn from(_: HostFault) -> Self {
        OpenFault::Host
    }
}

impl From<Memory> for OpenFault {
    ghost from_gives = { λ _ fault. fault ≡ MemoryFailed };

    fn from(_: Memory) -> Self {
        OpenFault::Memory
    }
}
