// The lines `create`, `open` and `view`.
ghost use Rattle.std.specs.Prelude.{◌≡◌, ℕ, List, Ok, false};
ghost use Rattle.pf_io.specs.Host.{HostState};
ghost use Rattle.pf_io.specs.Words.{WordsState};
ghost use Rattle.pf_script.specs.BookTurns.{SeatBooked};
ghost use Rattle.pf_script.specs.Desk.{IsSeatOf};
ghost use Rattle.pf_script.specs.DeskSteps.{SeatGoes};
ghost use Rattle.pf_script.specs.SeatReplies.{create_reply, open_reply};
ghost use Rattle.pf_script.specs.declared.line.ScriptLine.TheVariants as lines;

use crate::{Reply, Why};
use pf_io::{Host, Memory, Text, Words};
use pf_session::{CreateFault, OpenFault, Session};
use std::alloc::Global;

// The reply to a creation that failed. The text is that of the name.
fn create_fault(fault: CreateFault, name: Text) -> Result<Reply, Memory>
    ensures { result ≡ create_reply name fault }
{
    match fault {
        CreateFault::BadName => Ok(Reply::Refused { why: Why::BadName }),
        CreateFault::Memory => Err(Memory),
        CreateFault::Host => Ok(Reply::HostFault),
        CreateFault::Exists => Ok(Reply::Refused {
            why: Why::Exists { name },
        }),
        CreateFault::Words => Ok(Reply::WordsFault),
    }
}

// The reply to an opening that failed.
fn open_fault(fault: OpenFault, name: Text) -> Result<Reply, Memory>
    ensures { result ≡ open_reply name fault }
{
    let why = match fault {
        OpenFault::Memory => return Err(Memory),
        OpenFault::Host => return Ok(Reply::HostFault),
        OpenFault::Damaged(damage) => return Ok(Reply::DamagedNode { damage }),
        OpenFault::BadName => Why::BadName,
        OpenFault::NotFound => Why::NotFound { name },
        OpenFault::NotProtected => Why::NotProtected,
        OpenFault::Unbuilt => Why::Unbuilt,
        OpenFault::BadVersion { major, minor } => Why::BadVersion { major, minor },
        OpenFault::WrongPath { stored } => Why::WrongPath { stored },
    };
    Ok(Reply::Refused { why })
}

/// The line `create`. `taken` says whether another seat has the name.
pub(crate) fn create_file<H: Host, R: Words>(
    alloc: Global,
    host: &mut H,
    random: &mut R,
    key: &[u8; 16],
    seat: &mut Option<Session>,
    name: &str,
    taken: bool,
) -> Result<Reply, Memory>
    ensures goes { (k : ℕ) → IsSeatOf key.now seat.old → SeatGoes key.now taken (lines.Create k name.now) result seat.old seat.new (H.state host.old) (H.state host.new) (R.state random.old) (R.state random.new) }
    ensures booked { (k : ℕ) → IsSeatOf key.now seat.old → SeatBooked key.now taken (lines.Create k name.now) result seat.old seat.new (H.state host.old) (H.state host.new) (R.state random.old) (R.state random.new) }
{
    if seat.is_some() {
        return Ok(Reply::Refused { why: Why::SeatBusy });
    }
    if taken {
        return Ok(Reply::Refused { why: Why::NameBusy });
    }
    let text = Text::copy(alloc, name)?;
    match Session::create(alloc, host, random, key, name, name) {
        Ok(session) => {
            *seat = Some(session);
            Ok(Reply::Created)
        }
        Err(fault) => create_fault(fault, text),
    }
}

/// The line `open`. `taken` says whether another seat has the name.
pub(crate) fn open_file<H: Host>(
    alloc: Global,
    host: &mut H,
    key: &[u8; 16],
    seat: &mut Option<Session>,
    name: &str,
    taken: bool,
) -> Result<Reply, Memory>
    ensures goes { (k : ℕ) (words : WordsState) → IsSeatOf key.now seat.old → SeatGoes key.now taken (lines.Open k name.now) result seat.old seat.new (H.state host.old) (H.state host.new) words words }
    ensures booked { (k : ℕ) (words : WordsState) → IsSeatOf key.now seat.old → SeatBooked key.now taken (lines.Open k name.now) result seat.old seat.new (H.state host.old) (H.state host.new) words words }
{
    if seat.is_some() {
        return Ok(Reply::Refused { why: Why::SeatBusy });
    }
    if taken {
        return Ok(Reply::Refused { why: Why::NameBusy });
    }
    let text = Text::copy(alloc, name)?;
    match Session::open(alloc, host, key, name, Some(name)) {
        Ok(session) => {
            let size = session.size();
            *seat = Some(session);
            Ok(Reply::Opened { size })
        }
        Err(fault) => open_fault(fault, text),
    }
}

/// The line `view`: there is no manifest of which files could be viewed.
pub(crate) fn view_file(seat: &Option<Session>) -> Reply
    ensures goes { (key : List ℕ) (k : ℕ) (path : List ℕ) (host : HostState) (words : WordsState) → IsSeatOf key seat.now → SeatGoes key false (lines.View k path) (Ok result) seat.now seat.now host host words words }
    ensures booked { (key : List ℕ) (k : ℕ) (path : List ℕ) (host : HostState) (words : WordsState) → IsSeatOf key seat.now → SeatBooked key false (lines.View k path) (Ok result) seat.now seat.now host host words words }
{
    if seat.is_some() {
        return Reply::Refused { why: Why::SeatBusy };
    }
    Reply::Refused {
        why: Why::NoManifest,
    }
}
