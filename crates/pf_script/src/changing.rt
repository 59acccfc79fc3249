// The lines `write`, `fill` and `size`.
ghost use Rattle.std.specs.Prelude.{◌≡◌, ◌^◌, ◌≤◌, ℕ, List, IfOk, replicate, false};
ghost use Rattle.pf_script.specs.BookTurns.{SeatBooked};
ghost use Rattle.pf_script.specs.Desk.{IsSeatOf};
ghost use Rattle.pf_script.specs.DeskSteps.{SeatGoes};
ghost use Rattle.pf_script.specs.SeatReplies.{write_reply as reply_of_write, size_reply, IsNoLimit, SizesGo};
ghost use Rattle.pf_script.specs.declared.line.ScriptLine.TheVariants as lines;

use crate::{Reply, Why};
use pf_io::{Bytes, Host, Memory, Words};
use pf_session::{Session, SizeFault, WriteFault, Written};
use std::alloc::Global;

// The most bytes of one step, and of a content.
const LONGEST: u64 = 32_768;

const LARGEST: u64 = 1 << 32;

// The reply to a write of so many bytes.
fn write_reply(written: Result<Written, WriteFault>, count: u64) -> Result<Reply, Memory>
    ensures { result ≡ reply_of_write count written }
{
    let why = match written {
        Ok(Written { flushed_before }) => {
            return Ok(Reply::Written {
                count,
                flushed: flushed_before,
            });
        }
        Err(WriteFault::Words) => return Ok(Reply::WordsFault),
        Err(WriteFault::Damaged(damage)) => return Ok(Reply::DamagedNode { damage }),
        Err(WriteFault::Host) => return Ok(Reply::HostFault),
        Err(WriteFault::Memory) => return Err(Memory),
        Err(WriteFault::TooLong) => Why::TooLong,
        Err(WriteFault::TooLarge) => Why::TooLarge,
        Err(WriteFault::PastEnd { size }) => Why::PastEnd { size },
    };
    Ok(Reply::Refused { why })
}

/// The line `write`.
pub(crate) fn write_bytes<H: Host, R: Words>(
    host: &mut H,
    random: &mut R,
    seat: &mut Option<Session>,
    at: u64,
    bytes: &[u8],
) -> Result<Reply, Memory>
    ensures goes { (key : List ℕ) (k : ℕ) → IsSeatOf key seat.old → SeatGoes key false (lines.Write k at bytes.now) result seat.old seat.new (H.state host.old) (H.state host.new) (R.state random.old) (R.state random.new) }
    ensures booked { (key : List ℕ) (k : ℕ) → IsSeatOf key seat.old → SeatBooked key false (lines.Write k at bytes.now) result seat.old seat.new (H.state host.old) (H.state host.new) (R.state random.old) (R.state random.new) }
{
    let Some(session) = seat else {
        return Ok(Reply::Refused {
            why: Why::SeatEmpty,
        });
    };
    if session.broken() {
        return Ok(Reply::Refused { why: Why::Broken });
    }
    let written = session.write(host, random, at, bytes);
    write_reply(written, bytes.len() as u64)
}

// So many copies of a byte.
fn copies(alloc: Global, count: usize, byte: u8) -> Result<Bytes, Memory>
    ensures { IfOk result (λ bytes. bytes ≡ replicate count byte) }
{
    let mut bytes = Bytes::zeroed(alloc, count)?;
    bytes.as_mut_slice().fill(byte);
    Ok(bytes)
}

/// The line `fill`.
pub(crate) fn fill_bytes<H: Host, R: Words>(
    alloc: Global,
    host: &mut H,
    random: &mut R,
    seat: &mut Option<Session>,
    at: u64,
    count: u64,
    byte: u8,
) -> Result<Reply, Memory>
    ensures goes { (key : List ℕ) (k : ℕ) → IsSeatOf key seat.old → SeatGoes key false (lines.Fill k at count byte) result seat.old seat.new (H.state host.old) (H.state host.new) (R.state random.old) (R.state random.new) }
    ensures booked { (key : List ℕ) (k : ℕ) → IsSeatOf key seat.old → SeatBooked key false (lines.Fill k at count byte) result seat.old seat.new (H.state host.old) (H.state host.new) (R.state random.old) (R.state random.new) }
{
    let Some(session) = seat else {
        return Ok(Reply::Refused {
            why: Why::SeatEmpty,
        });
    };
    if session.broken() {
        return Ok(Reply::Refused { why: Why::Broken });
    }
    if count > LONGEST {
        return Ok(Reply::Refused { why: Why::TooLong });
    }
    let bytes = copies(alloc, count as usize, byte)?;
    let written = session.write(host, random, at, bytes.as_slice());
    write_reply(written, count)
}

// The reply to a change of the size that failed.
fn size_fault(fault: SizeFault) -> Result<Reply, Memory>
    requires { IsNoLimit fault }
    ensures { result ≡ size_reply fault }
{
    match fault {
        SizeFault::Words => Ok(Reply::WordsFault),
        SizeFault::Damaged(damage) => Ok(Reply::DamagedNode { damage }),
        SizeFault::Host => Ok(Reply::HostFault),
        SizeFault::Memory => Err(Memory),
        SizeFault::TooLarge | SizeFault::TooFar { .. } => unreachable!(),
    }
}

// Steps of a piece, as long as more than one is wanting; then the last one.
fn resize<H: Host, R: Words>(
    host: &mut H,
    random: &mut R,
    session: &mut Session,
    size: u64,
) -> Result<(), SizeFault>
    requires whole { session.old.broken ≡ false }
    requires small { size ≤ 2 ^ 32 }
    ensures { SizesGo result size session.old session.new (H.state host.old) (H.state host.new) (R.state random.old) (R.state random.new) }
{
    while session.size() + LONGEST < size {
        let next = session.size() + LONGEST;
        session.set_size(host, random, next)?;
    }
    session.set_size(host, random, size)?;
    Ok(())
}

/// The line `size`.
pub(crate) fn set_size<H: Host, R: Words>(
    host: &mut H,
    random: &mut R,
    seat: &mut Option<Session>,
    size: u64,
) -> Result<Reply, Memory>
    ensures goes { (key : List ℕ) (k : ℕ) → IsSeatOf key seat.old → SeatGoes key false (lines.Size k size) result seat.old seat.new (H.state host.old) (H.state host.new) (R.state random.old) (R.state random.new) }
    ensures booked { (key : List ℕ) (k : ℕ) → IsSeatOf key seat.old → SeatBooked key false (lines.Size k size) result seat.old seat.new (H.state host.old) (H.state host.new) (R.state random.old) (R.state random.new) }
{
    let Some(session) = seat else {
        return Ok(Reply::Refused {
            why: Why::SeatEmpty,
        });
    };
    if session.broken() {
        return Ok(Reply::Refused { why: Why::Broken });
    }
    if size > LARGEST {
        return Ok(Reply::Refused { why: Why::TooLarge });
    }
    match resize(host, random, session, size) {
        Ok(()) => Ok(Reply::Sized { size }),
        Err(fault) => size_fault(fault),
    }
}
