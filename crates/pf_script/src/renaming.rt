// The line `move`.
ghost use Rattle.std.specs.Prelude.{◌≡◌, ℕ, List, IfSome, false};
ghost use Rattle.pf_script.specs.BookTurns.{SeatBooked};
ghost use Rattle.pf_script.specs.Desk.{IsSeatOf};
ghost use Rattle.pf_script.specs.DeskSteps.{SeatGoes};
ghost use Rattle.pf_script.specs.SeatReplies.{move_reply as reply_of_move};
ghost use Rattle.pf_script.specs.declared.line.ScriptLine.TheVariants as lines;

use crate::{Reply, Why};
use pf_io::{Host, Memory, Words};
use pf_session::{MoveFault, Session};
use std::alloc::Global;

// The reply to a move.
fn move_reply(moved: Result<(), MoveFault>) -> Result<Reply, Memory>
    ensures { result ≡ reply_of_move moved }
{
    match moved {
        Ok(()) => Ok(Reply::Moved),
        Err(MoveFault::BadName) => Ok(Reply::Refused { why: Why::BadName }),
        Err(MoveFault::TargetExists) => Ok(Reply::Refused {
            why: Why::TargetExists,
        }),
        Err(MoveFault::Words) => Ok(Reply::WordsFault),
        Err(MoveFault::Damaged(damage)) => Ok(Reply::DamagedNode { damage }),
        Err(MoveFault::Host) => Ok(Reply::HostFault),
        Err(MoveFault::Memory) => Err(Memory),
    }
}

/// The line `move`. `taken` says whether another seat has the name.
pub(crate) fn move_file<H: Host, R: Words>(
    alloc: Global,
    host: &mut H,
    random: &mut R,
    seat: &mut Option<Session>,
    name: &str,
    taken: bool,
) -> Result<Reply, Memory>
    requires { IfSome seat.old (λ session. session.beside ≡ false) }
    ensures goes { (key : List ℕ) (k : ℕ) → IsSeatOf key seat.old → SeatGoes key taken (lines.Move k name.now) result seat.old seat.new (H.state host.old) (H.state host.new) (R.state random.old) (R.state random.new) }
    ensures booked { (key : List ℕ) (k : ℕ) → IsSeatOf key seat.old → SeatBooked key taken (lines.Move k name.now) result seat.old seat.new (H.state host.old) (H.state host.new) (R.state random.old) (R.state random.new) }
{
    let Some(session) = seat else {
        return Ok(Reply::Refused {
            why: Why::SeatEmpty,
        });
    };
    if session.broken() {
        return Ok(Reply::Refused { why: Why::Broken });
    }
    if taken {
        return Ok(Reply::Refused { why: Why::NameBusy });
    }
    let moved = session.move_to(alloc, host, random, name);
    move_reply(moved)
}
