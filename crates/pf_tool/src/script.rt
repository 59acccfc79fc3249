// The command `session`.
ghost use Rattle.std.specs.Prelude.{◌<◌};
ghost use Rattle.pf_io.specs.Streams.{SourceState, SinkState};
ghost use Rattle.pf_script.specs.LineReading.{ReaderState};
ghost use Rattle.pf_tool.specs.World.{world_of};
ghost use Rattle.pf_tool.specs.Replying.{SaysClosing};
ghost use Rattle.pf_tool.specs.Scripting.{at, ClosingGoes, ClosingsEnd, ScriptGoes};

use crate::fault::Fault;
use crate::key::read_key;
use crate::script_lines::{answer_lines, first_of, say};
use crate::words::Session;
use pf_io::{Host, Sink, Source, StreamFault, Words};
use pf_script::{Desk, LineReader, Reply};
use std::alloc::Global;

// Writes a reply to a closing that failed, and answers its status, or 0.
fn say_closing<K: Sink>(out: &mut K, reply: &Option<Reply>) -> Result<u8, StreamFault>
    ensures { SaysClosing result reply.now (K.state out.old) (K.state out.new) }
{
    match reply {
        None | Some(Reply::Closed { .. }) => Ok(0),
        Some(_) => say(out, reply),
    }
}

// Closes a seat, and answers the status of its closing.
fn close_seat<H: Host, K: Sink, R: Words>(
    host: &mut H,
    out: &mut K,
    random: &mut R,
    desk: &mut Desk,
    seat: u8,
) -> Result<u8, StreamFault>
    requires { seat < 8 }
    ensures { (reader : ReaderState) (input : SourceState) (log : SinkState) → ClosingGoes seat result (at desk.old reader (world_of (H.state host.old) input (K.state out.old) log (R.state random.old)))
        (at desk.new reader (world_of (H.state host.new) input (K.state out.new) log (R.state random.new))) }
{
    let reply = desk.end(host, random, seat);
    say_closing(out, &reply)
}

// Closes the seats in order. Gives the status of the first closing that failed, or 0.
fn close_seats<H: Host, K: Sink, R: Words>(
    host: &mut H,
    out: &mut K,
    random: &mut R,
    desk: &mut Desk,
) -> Result<u8, StreamFault>
    ensures { (reader : ReaderState) (input : SourceState) (log : SinkState) → ClosingsEnd result (at desk.old reader (world_of (H.state host.old) input (K.state out.old) log (R.state random.old)))
        (at desk.new reader (world_of (H.state host.new) input (K.state out.new) log (R.state random.new))) }
{
    let mut status = 0;
    for seat in 0..8 {
        let next = close_seat(host, out, random, desk, seat)?;
        status = first_of(status, next);
    }
    Ok(status)
}

/// Answers the script that the input is, and then closes its files. Gives the status of the first reply that is not
/// accepted, or 0.
pub(crate) fn run_script<'a, H: Host, S: Source, K: Sink, R: Words>(
    alloc: Global,
    host: &mut H,
    input: &mut S,
    out: &mut K,
    random: &mut R,
    command: &Session<'a>,
) -> Result<u8, Fault<'a>>
    ensures { (log : SinkState) → ScriptGoes command.now.key.now result (world_of (H.state host.old) (S.state input.old) (K.state out.old) log (R.state random.old))
        (world_of (H.state host.new) (S.state input.new) (K.state out.new) log (R.state random.new)) }
{
    let user = read_key(host, command.key)?;
    let mut reader = LineReader::new(alloc)?;
    let mut desk = Desk::new(alloc, user);
    let lines = answer_lines(alloc, host, input, out, random, &mut reader, &mut desk)?;
    let closings = close_seats(host, out, random, &mut desk)?;
    out.write(b"end\n")?;
    Ok(first_of(lines, closings))
}
