// Why bytes are no manifest.
ghost use Rattle.std.specs.Prelude.{◌≡◌};
ghost use Rattle.manifest_model.specs.declared.fault.ManifestFault.TheVariants.{Memory as NoMemory};

use pf_io::{Memory, Text};
use std::alloc::{AllocError, AllocFailed};

/// Why bytes are no manifest. A key is the path of keys joined by `.`, with `[K]` for the place in a list, counted
/// from 0; a uri is that of the item, root or mount that is refused, as it stands there.
#[derive(Drop)]
pub enum ManifestFault {
    /// The bytes are not UTF-8 or no TOML document.
    NotToml,
    /// A field that is needed is absent or has another form, a value is a float or a date-time, or it is nested deeper
    /// than 32.
    BadField { key: Text },
    /// A uri names no file.
    BadUri { uri: Text },
    /// A sum is not 64 hexadecimal digits.
    BadSum { uri: Text },
    /// An earlier entry with the same normal uri has another sum.
    TwoSums { uri: Text },
    /// The key of that name is not 32 hexadecimal digits.
    BadKey { name: Text },
    /// The policy is none.
    BadPolicy { text: Text },
    /// There is no memory left.
    Memory,
}

impl From<Memory> for ManifestFault {
    ghost from_gives = { λ _ fault. fault ≡ NoMemory };

    fn from(_: Memory) -> Self {
        ManifestFault::Memory
    }
}

impl From<AllocError> for ManifestFault {
    ghost from_gives = { λ _ fault. fault ≡ NoMemory };

    fn from(_: AllocError) -> Self {
        ManifestFault::Memory
    }
}

impl<T: Drop> From<AllocFailed<T>> for ManifestFault {
    ghost from_gives = { λ _ fault. fault ≡ NoMemory };

    fn from(_: AllocFailed<T>) -> Self {
        ManifestFault::Memory
    }
}
