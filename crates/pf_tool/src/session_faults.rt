// Why a call of a session ends a command.
ghost use Rattle.std.specs.Prelude.{◌≡◌};
ghost use Rattle.pf_tool.specs.Faults.{beside_fault, flush_fault, MayMeetPiece, IsPieceFault, MayMeetOpening, SaysOpening};

use crate::fault::Fault;
use crate::why::Why;
use pf_session::{BesideFault, FlushFault, OpenFault, WriteFault};

impl From<BesideFault> for Fault<'_> {
    ghost from_gives = { λ fault made. made ≡ beside_fault fault };

    fn from(fault: BesideFault) -> Self {
        match fault {
            BesideFault::BadName => Fault::Refused(Why::BadName),
            BesideFault::Memory => Fault::Memory,
            BesideFault::Words => Fault::Random,
            BesideFault::Host => Fault::Host,
        }
    }
}

impl From<FlushFault> for Fault<'_> {
    ghost from_gives = { λ fault made. made ≡ flush_fault fault };

    fn from(fault: FlushFault) -> Self {
        match fault {
            FlushFault::Words => Fault::Random,
            FlushFault::Damaged(damage) => Fault::Damaged(damage),
            FlushFault::Host => Fault::Host,
        }
    }
}

/// The fault of a piece that is not written. It is never too long, and begins where the content ends.
pub(crate) fn piece_fault(fault: WriteFault) -> Fault<'static>
    requires { MayMeetPiece fault }
    ensures { IsPieceFault fault result }
{
    match fault {
        WriteFault::TooLarge => Fault::Refused(Why::TooLarge),
        WriteFault::Words => Fault::Random,
        WriteFault::Damaged(damage) => Fault::Damaged(damage),
        WriteFault::Host => Fault::Host,
        WriteFault::Memory => Fault::Memory,
        WriteFault::TooLong | WriteFault::PastEnd { .. } => unreachable!(),
    }
}

/// The fault of an opening of the name under any path.
pub(crate) fn opening_fault<'a>(fault: OpenFault, name: &'a str) -> Fault<'a>
    requires { MayMeetOpening fault }
    ensures { SaysOpening name.now fault result }
{
    match fault {
        OpenFault::BadName => Fault::Refused(Why::BadName),
        OpenFault::Memory => Fault::Memory,
        OpenFault::Host => Fault::Host,
        OpenFault::NotFound => Fault::Refused(Why::NotFound(name)),
        OpenFault::NotProtected => Fault::Refused(Why::NotProtected),
        OpenFault::Damaged(damage) => Fault::Damaged(damage),
        OpenFault::Unbuilt => Fault::Refused(Why::Unbuilt),
        OpenFault::BadVersion { major, minor } => Fault::Refused(Why::BadVersion { major, minor }),
        OpenFault::WrongPath { .. } => unreachable!(),
    }
}
