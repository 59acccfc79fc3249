//! Why a call of a tree ends early.
ghost use Rattle.std.specs.Prelude.{◌≡◌};
ghost use Rattle.node_tree.specs.declared.fault.TreeFault.TheVariants.{Host as HostFailed};

use node_layout::Damage;
use pf_io::HostFault;

/// Why a call of a tree ends before its work is done.
#[derive(Clone, Copy, Debug, PartialEq, Eq)]
pub enum TreeFault {
    /// A node of the file is damaged.
    Damaged(Damage),
    /// A call of the host failed.
    Host,
    /// There is no memory.
    Memory,
}

impl From<HostFault> for TreeFault {
    ghost from_gives = { λ _ fault. fault ≡ HostFailed };

    fn from(_: HostFault) -> Self {
        TreeFault::Host
    }
}
