// Why a command ends before its work is done, and what it then says.
ghost use Rattle.std.specs.Prelude.{◌≡◌, ◌++◌, codes};
ghost use Rattle.pf_tool.specs.Endings.{kind_word};
ghost use Rattle.pf_tool.specs.Faults.{fault_line, fault_status};
ghost use Rattle.pf_tool.specs.Reports.{Written, Reported};
ghost use Rattle.pf_tool.specs.declared.fault.Fault.TheVariants.{Host as HostFailed, Random as RandomFailed, Memory as MemoryFailed, Stream as StreamFailed};

use crate::lines::{write_number, write_text};
use crate::why::Why;
use node_layout::{Damage, Kind};
use pf_io::{HostFault, Memory, Sink, StreamFault, WordsFault};
use std::alloc::AllocError;

/// Why a command ends before its work is done.
#[derive(Drop)]
pub(crate) enum Fault<'a> {
    /// The words are no command.
    NoCommand,
    /// A named rule refuses.
    Refused(Why<'a>),
    /// A node of the protected file is damaged.
    Damaged(Damage),
    /// A call of the host failed.
    Host,
    /// A call of a stream failed.
    Stream,
    /// There is no memory.
    Memory,
    /// No random word came.
    Random,
}

impl From<HostFault> for Fault<'_> {
    ghost from_gives = { λ _ fault. fault ≡ HostFailed };

    fn from(_: HostFault) -> Self {
        Fault::Host
    }
}

impl From<StreamFault> for Fault<'_> {
    ghost from_gives = { λ _ fault. fault ≡ StreamFailed };

    fn from(_: StreamFault) -> Self {
        Fault::Stream
    }
}

impl From<WordsFault> for Fault<'_> {
    ghost from_gives = { λ _ fault. fault ≡ RandomFailed };

    fn from(_: WordsFault) -> Self {
        Fault::Random
    }
}

impl From<AllocError> for Fault<'_> {
    ghost from_gives = { λ _ fault. fault ≡ MemoryFailed };

    fn from(_: AllocError) -> Self {
        Fault::Memory
    }
}

impl From<Memory> for Fault<'_> {
    ghost from_gives = { λ _ fault. fault ≡ MemoryFailed };

    fn from(_: Memory) -> Self {
        Fault::Memory
    }
}

// A kind of damage, behind the number of its node.
fn word_of(kind: Kind) -> &'static str
    ensures { result.now ≡ codes " " ++ kind_word kind }
{
    match kind {
        Kind::Short => " short",
        Kind::Tag => " tag",
        Kind::Text => " text",
        Kind::Log => " log",
    }
}

impl Fault<'_> {
    /// The status that the program ends with.
    pub(crate) fn status(&self) -> u8
        ensures { result ≡ fault_status self.now }
    {
        match self {
            Fault::NoCommand => 2,
            Fault::Refused(_) => 3,
            Fault::Damaged(_) => 1,
            Fault::Host => 4,
            Fault::Memory => 5,
            Fault::Random => 6,
            Fault::Stream => 7,
        }
    }

    /// Writes the line that names it. No memory is taken for it.
    pub(crate) fn say<L: Sink>(&self, log: &mut L) -> Result<(), StreamFault>
        ensures { Written result (fault_line self.now) (L.state log.old) (L.state log.new) }
    {
        match self {
            Fault::NoCommand => write_text(log, "usage: unbuilt words"),
            Fault::Refused(why) => why.say(log),
            Fault::Damaged(damage) => {
                write_number(log, "damaged node ", damage.node, word_of(damage.kind))
            }
            Fault::Host => write_text(log, "host fault"),
            Fault::Memory => write_text(log, "want of memory"),
            Fault::Random => write_text(log, "random fault"),
            Fault::Stream => write_text(log, "stream fault"),
        }
    }

    /// Writes the line that names it, and answers the status that the run ends with.
    pub(crate) fn report<L: Sink>(&self, log: &mut L) -> u8
        ensures { Reported (fault_line self.now) (fault_status self.now) (L.state log.old) (L.state log.new) result }
    {
        match self.say(log) {
            Ok(()) => self.status(),
            Err(_) => 7,
        }
    }
}
