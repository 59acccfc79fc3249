//! Why a call of a session ends before its work is done.
ghost use Rattle.std.specs.Prelude.{◌≡◌};
ghost use Rattle.pf_session.specs.Faults.{write_of_flush, write_of_tree, size_of_flush, size_of_tree, move_of_flush};
ghost use Rattle.pf_session.specs.declared.fault.FlushFault.TheVariants.{Words as FlushWords, Host as FlushHost};
ghost use Rattle.pf_session.specs.declared.fault.CreateFault.TheVariants.{Memory as CreateMemory, Words as CreateWords, Host as CreateHost};
ghost use Rattle.pf_session.specs.declared.fault.BesideFault.TheVariants.{Memory as BesideMemory, Words as BesideWords, Host as BesideHost};
ghost use Rattle.pf_session.specs.declared.fault.MoveFault.TheVariants.{Memory as MoveMemory, Host as MoveHost};

use node_layout::Damage;
use node_tree::TreeFault;
use pf_io::{HostFault, Memory, WordsFault};

/// Why a session is not flushed.
#[derive(Clone, Copy, Debug, PartialEq, Eq)]
pub enum FlushFault {
    /// No random word came.
    Words,
    /// A node of the file is damaged.
    Damaged(Damage),
    /// A call of the host failed.
    Host,
}

/// Why bytes are not written.
#[derive(Clone, Copy, Debug, PartialEq, Eq)]
pub enum WriteFault {
    /// They are more than 32,768.
    TooLong,
    /// Their end is above 2^32.
    TooLarge,
    /// They begin behind the content's end.
    PastEnd { size: u64 },
    /// No random word came.
    Words,
    /// A node of the file is damaged.
    Damaged(Damage),
    /// A call of the host failed.
    Host,
    /// There is no memory.
    Memory,
}

/// Why a size is not set.
#[derive(Clone, Copy, Debug, PartialEq, Eq)]
pub enum SizeFault {
    /// It is above 2^32.
    TooLarge,
    /// It is above the present size by more than 32,768.
    TooFar { size: u64 },
    /// No random word came.
    Words,
    /// A node of the file is damaged.
    Damaged(Damage),
    /// A call of the host failed.
    Host,
    /// There is no memory.
    Memory,
}

/// Why a file is not created.
#[derive(Clone, Copy, Debug, PartialEq, Eq)]
pub enum CreateFault {
    /// The name is none that a protected file may have, or the path is none that it may be stored under.
    BadName,
    /// There is no memory.
    Memory,
    /// A call of the host failed.
    Host,
    /// There is a file of this name.
    Exists,
    /// No random word came.
    Words,
}

/// Why a file is not created beside its name.
#[derive(Clone, Copy, Debug, PartialEq, Eq)]
pub enum BesideFault {
    /// The name is none that a protected file may have, or the path is none that it may be stored under.
    BadName,
    /// There is no memory.
    Memory,
    /// No random word came.
    Words,
    /// A call of the host failed.
    Host,
}

/// Why a file is not moved.
#[derive(Clone, Copy, Debug, PartialEq, Eq)]
pub enum MoveFault {
    /// The new name is none that a protected file may have.
    BadName,
    /// There is no memory.
    Memory,
    /// A call of the host failed.
    Host,
    /// There is a file of the new name.
    TargetExists,
    /// No random word came.
    Words,
    /// A node of the file is damaged.
    Damaged(Damage),
}

/// A change that was made.
#[derive(Clone, Copy, Debug, PartialEq, Eq)]
pub struct Written {
    /// Whether the session was flushed before, since else too many nodes had been dirty.
    pub flushed_before: bool,
}

impl From<HostFault> for FlushFault {
    ghost from_gives = { λ _ fault. fault ≡ FlushHost };

    fn from(_: HostFault) -> Self {
        FlushFault::Host
    }
}

impl From<WordsFault> for FlushFault {
    ghost from_gives = { λ _ fault. fault ≡ FlushWords };

    fn from(_: WordsFault) -> Self {
        FlushFault::Words
    }
}

impl From<Memory> for CreateFault {
    ghost from_gives = { λ _ fault. fault ≡ CreateMemory };

    fn from(_: Memory) -> Self {
        CreateFault::Memory
    }
}

impl From<WordsFault> for CreateFault {
    ghost from_gives = { λ _ fault. fault ≡ CreateWords };

    fn from(_: WordsFault) -> Self {
        CreateFault::Words
    }
}

impl From<HostFault> for CreateFault {
    ghost from_gives = { λ _ fault. fault ≡ CreateHost };

    fn from(_: HostFault) -> Self {
        CreateFault::Host
    }
}

impl From<Memory> for BesideFault {
    ghost from_gives = { λ _ fault. fault ≡ BesideMemory };

    fn from(_: Memory) -> Self {
        BesideFault::Memory
    }
}

impl From<WordsFault> for BesideFault {
    ghost from_gives = { λ _ fault. fault ≡ BesideWords };

    fn from(_: WordsFault) -> Self {
        BesideFault::Words
    }
}

impl From<HostFault> for BesideFault {
    ghost from_gives = { λ _ fault. fault ≡ BesideHost };

    fn from(_: HostFault) -> Self {
        BesideFault::Host
    }
}

impl From<FlushFault> for WriteFault {
    ghost from_gives = { λ fault made. made ≡ write_of_flush fault };

    fn from(fault: FlushFault) -> Self {
        match fault {
            FlushFault::Words => WriteFault::Words,
            FlushFault::Damaged(damage) => WriteFault::Damaged(damage),
            FlushFault::Host => WriteFault::Host,
        }
    }
}

impl From<TreeFault> for WriteFault {
    ghost from_gives = { λ fault made. made ≡ write_of_tree fault };

    fn from(fault: TreeFault) -> Self {
        match fault {
            TreeFault::Damaged(damage) => WriteFault::Damaged(damage),
            TreeFault::Host => WriteFault::Host,
            TreeFault::Memory => WriteFault::Memory,
        }
    }
}

impl From<FlushFault> for SizeFault {
    ghost from_gives = { λ fault made. made ≡ size_of_flush fault };

    fn from(fault: FlushFault) -> Self {
        match fault {
            FlushFault::Words => SizeFault::Words,
            FlushFault::Damaged(damage) => SizeFault::Damaged(damage),
            FlushFault::Host => SizeFault::Host,
        }
    }
}

impl From<TreeFault> for SizeFault {
    ghost from_gives = { λ fault made. made ≡ size_of_tree fault };

    fn from(fault: TreeFault) -> Self {
        match fault {
            TreeFault::Damaged(damage) => SizeFault::Damaged(damage),
            TreeFault::Host => SizeFault::Host,
            TreeFault::Memory => SizeFault::Memory,
        }
    }
}

impl From<Memory> for MoveFault {
    ghost from_gives = { λ _ fault. fault ≡ MoveMemory };

    fn from(_: Memory) -> Self {
        MoveFault::Memory
    }
}

impl From<HostFault> for MoveFault {
    ghost from_gives = { λ _ fault. fault ≡ MoveHost };

    fn from(_: HostFault) -> Self {
        MoveFault::Host
    }
}

impl From<FlushFault> for MoveFault {
    ghost from_gives = { λ fault made. made ≡ move_of_flush fault };

    fn from(fault: FlushFault) -> Self {
        match fault {
            FlushFault::Words => MoveFault::Words,
            FlushFault::Damaged(damage) => MoveFault::Damaged(damage),
            FlushFault::Host => MoveFault::Host,
        }
    }
}
