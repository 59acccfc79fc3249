// The line `read`.
ghost use Rattle.std.specs.Prelude.{◌≡◌, ◌-◌, ◌≤◌, ℕ, List, Some, min, false};
ghost use Rattle.pf_io.specs.Words.{WordsState};
ghost use Rattle.pf_script.specs.BookTurns.{SeatBooked};
ghost use Rattle.pf_script.specs.Desk.{IsSeatOf, IsSeated};
ghost use Rattle.pf_script.specs.DeskSteps.{SeatGoes};
ghost use Rattle.pf_script.specs.SeatReplies.{read_reply as reply_of_read};
ghost use Rattle.pf_script.specs.declared.line.ScriptLine.TheVariants as lines;

use crate::{Reply, Why};
use node_tree::TreeFault;
use pf_io::{Bytes, Host, Memory};
use pf_session::Session;
use std::alloc::Global;

// The most bytes of one read.
const LONGEST: u64 = 32_768;

// How many bytes a content of this size has from a place on, at most `count`.
fn reach(size: u64, at: u64, count: u64) -> u64
    ensures { result ≡ min count (size - at) }
{
    if at < size { count.min(size - at) } else { 0 }
}

// The reply to a read into these bytes.
fn read_reply(read: Result<usize, TreeFault>, bytes: Bytes) -> Result<Reply, Memory>
    ensures { result ≡ reply_of_read bytes read }
{
    match read {
        Ok(_) => Ok(Reply::Given { bytes }),
        Err(TreeFault::Damaged(damage)) => Ok(Reply::DamagedNode { damage }),
        Err(TreeFault::Host) => Ok(Reply::HostFault),
        Err(TreeFault::Memory) => Err(Memory),
    }
}

fn read_content<H: Host>(
    alloc: Global,
    host: &mut H,
    session: &mut Session,
    at: u64,
    count: u64,
) -> Result<Reply, Memory>
    requires whole { session.old.broken ≡ false }
    requires few { count ≤ 32768 }
    ensures goes { (key : List ℕ) (k : ℕ) (words : WordsState) → IsSeated key session.old → SeatGoes key false (lines.Read k at count) result (Some session.old) (Some session.new) (H.state host.old) (H.state host.new) words words }
    ensures booked { (key : List ℕ) (k : ℕ) (words : WordsState) → IsSeated key session.old → SeatBooked key false (lines.Read k at count) result (Some session.old) (Some session.new) (H.state host.old) (H.state host.new) words words }
{
    let count = reach(session.size(), at, count);
    let mut bytes = Bytes::zeroed(alloc, count as usize)?;
    let read = session.read(host, at, bytes.as_mut_slice());
    read_reply(read, bytes)
}

/// The line `read`.
pub(crate) fn read_bytes<H: Host>(
    alloc: Global,
    host: &mut H,
    seat: &mut Option<Session>,
    at: u64,
    count: u64,
) -> Result<Reply, Memory>
    ensures goes { (key : List ℕ) (k : ℕ) (words : WordsState) → IsSeatOf key seat.old → SeatGoes key false (lines.Read k at count) result seat.old seat.new (H.state host.old) (H.state host.new) words words }
    ensures booked { (key : List ℕ) (k : ℕ) (words : WordsState) → IsSeatOf key seat.old → SeatBooked key false (lines.Read k at count) result seat.old seat.new (H.state host.old) (H.state host.new) words words }
{
    let Some(session) = seat else {
        return Ok(Reply::Refused {
            why: Why::SeatEmpty,
        });
    };
    if session.broken() {
        return Ok(Reply::Refused { why: Why::Broken });
    }
    if count > LONGEST {
        return Ok(Reply::Refused { why: Why::TooLong });
    }
    read_content(alloc, host, session, at, count)
}
