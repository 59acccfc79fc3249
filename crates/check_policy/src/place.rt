// Where a path leads.
ghost use Rattle.std.specs.Prelude.{◌≡◌};
ghost use Rattle.check_policy.specs.declared.place.ResolveFault.TheVariants.{Memory as NoMemory};

use pf_io::{Memory, Text};

/// Where a path leads.
#[derive(Drop)]
pub enum Place {
    /// To a file of the host, with its uri `file:` and its name.
    HostFile { uri: Text, name: Text },
    /// To a protected file of the host, by its name, with the key of its mount.
    Protected { name: Text, key: [u8; 16] },
    /// To no file of the host.
    Nothing,
}

/// Why a path leads to no place.
#[derive(Drop)]
pub enum ResolveFault {
    /// The path is not absolute, has a byte 0 or more than 512 bytes, or the name found on the host has more than 512.
    BadPath,
    /// The manifest has no key of the name that the mount gives.
    NoKey { name: Text },
    /// There is no memory left.
    Memory,
}

impl From<Memory> for ResolveFault {
    ghost from_gives = { λ _ fault. fault ≡ NoMemory };

    fn from(_: Memory) -> Self {
        ResolveFault::Memory
    }
}
