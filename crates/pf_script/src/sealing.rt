// The lines `flush`, `draw` and `close`.
ghost use Rattle.std.specs.Prelude.{◌≡◌, ℕ, List, Ok, None, false};
ghost use Rattle.pf_io.specs.Host.{HostState};
ghost use Rattle.pf_script.specs.BookTurns.{SeatBooked};
ghost use Rattle.pf_script.specs.Desk.{IsSeatOf};
ghost use Rattle.pf_script.specs.DeskSteps.{SeatGoes};
ghost use Rattle.pf_script.specs.SeatReplies.{flush_reply};
ghost use Rattle.pf_script.specs.declared.line.ScriptLine.TheVariants as lines;

use crate::{Reply, Why};
use pf_io::{Host, Words};
use pf_session::{FlushFault, Session};

// The reply to a flush that failed.
fn flush_fault(fault: FlushFault) -> Reply
    ensures { result ≡ flush_reply fault }
{
    match fault {
        FlushFault::Words => Reply::WordsFault,
        FlushFault::Damaged(damage) => Reply::DamagedNode { damage },
        FlushFault::Host => Reply::HostFault,
    }
}

/// The line `flush`.
pub(crate) fn flush_seat<H: Host, R: Words>(
    host: &mut H,
    random: &mut R,
    seat: &mut Option<Session>,
) -> Reply
    ensures goes { (key : List ℕ) (k : ℕ) → IsSeatOf key seat.old → SeatGoes key false (lines.Flush k) (Ok result) seat.old seat.new (H.state host.old) (H.state host.new) (R.state random.old) (R.state random.new) }
    ensures booked { (key : List ℕ) (k : ℕ) → IsSeatOf key seat.old → SeatBooked key false (lines.Flush k) (Ok result) seat.old seat.new (H.state host.old) (H.state host.new) (R.state random.old) (R.state random.new) }
{
    let Some(session) = seat else {
        return Reply::Refused {
            why: Why::SeatEmpty,
        };
    };
    if session.broken() {
        return Reply::Refused { why: Why::Broken };
    }
    match session.flush(host, random) {
        Ok(()) => Reply::Flushed,
        Err(fault) => flush_fault(fault),
    }
}

/// The line `draw`.
pub(crate) fn draw_nonce<R: Words>(random: &mut R, seat: &mut Option<Session>) -> Reply
    ensures goes { (key : List ℕ) (k : ℕ) (host : HostState) → IsSeatOf key seat.old → SeatGoes key false (lines.Draw k) (Ok result) seat.old seat.new host host (R.state random.old) (R.state random.new) }
    ensures booked { (key : List ℕ) (k : ℕ) (host : HostState) → IsSeatOf key seat.old → SeatBooked key false (lines.Draw k) (Ok result) seat.old seat.new host host (R.state random.old) (R.state random.new) }
{
    let Some(session) = seat else {
        return Reply::Refused {
            why: Why::SeatEmpty,
        };
    };
    if session.broken() {
        return Reply::Refused { why: Why::Broken };
    }
    match session.draw(random) {
        Ok(nonce) => Reply::Drawn { nonce },
        Err(_) => Reply::WordsFault,
    }
}

/// The line `close`, which leaves the seat empty whatever comes.
pub(crate) fn close_seat<H: Host, R: Words>(
    host: &mut H,
    random: &mut R,
    seat: &mut Option<Session>,
) -> Reply
    ensures empty { seat.new ≡ None }
    ensures goes { (key : List ℕ) (k : ℕ) → IsSeatOf key seat.old → SeatGoes key false (lines.Close k) (Ok result) seat.old seat.new (H.state host.old) (H.state host.new) (R.state random.old) (R.state random.new) }
    ensures booked { (key : List ℕ) (k : ℕ) → IsSeatOf key seat.old → SeatBooked key false (lines.Close k) (Ok result) seat.old seat.new (H.state host.old) (H.state host.new) (R.state random.old) (R.state random.new) }
{
    let Some(session) = seat.take() else {
        return Reply::Refused {
            why: Why::SeatEmpty,
        };
    };
    let lost = session.broken();
    match session.close(host, random) {
        Ok(()) => Reply::Closed { lost },
        Err(fault) => flush_fault(fault),
    }
}
