// The lines of a script, answered one by one.
ghost use Rattle.std.specs.Prelude.{◌≡◌};
ghost use Rattle.pf_io.specs.Streams.{SinkState};
ghost use Rattle.pf_script.specs.LineReading.{IsBounded};
ghost use Rattle.pf_tool.specs.World.{world_of};
ghost use Rattle.pf_tool.specs.Replying.{reply_status as status_by_reply, Says, first_of as first_status};
ghost use Rattle.pf_tool.specs.Scripting.{at, BytesAnswered, NextGoes, LinesEnd};

use crate::fault::Fault;
use pf_io::{Host, Memory, Sink, Source, StreamFault, Words};
use pf_script::{Desk, LineFault, LineReader, NextLine, Reply, read_line, write_reply};
use std::alloc::Global;

// The status of a reply, which is 0 where it is accepted.
fn reply_status(reply: &Reply) -> u8
    ensures { result ≡ status_by_reply reply.now }
{
    match reply {
        Reply::Refused { .. } => 3,
        Reply::DamagedNode { .. } | Reply::DamagedChunk { .. } => 1,
        Reply::HostFault => 4,
        Reply::WordsFault => 6,
        Reply::None
        | Reply::Created
        | Reply::Opened { .. }
        | Reply::Viewed { .. }
        | Reply::Given { .. }
        | Reply::Written { .. }
        | Reply::Sized { .. }
        | Reply::Flushed
        | Reply::Moved
        | Reply::Drawn { .. }
        | Reply::Closed { .. } => 0,
    }
}

/// Writes a reply, and answers its status. No reply says that there was no line.
pub(crate) fn say<K: Sink>(out: &mut K, reply: &Option<Reply>) -> Result<u8, StreamFault>
    ensures { Says result reply.now (K.state out.old) (K.state out.new) }
{
    let Some(reply) = reply else {
        out.write(b"refused bad line\n")?;
        return Ok(3);
    };
    write_reply(out, reply)?;
    Ok(reply_status(reply))
}

/// The first of two statuses that is not 0, or 0.
pub(crate) fn first_of(status: u8, next: u8) -> u8
    ensures { result ≡ first_status status next }
{
    if status == 0 { next } else { status }
}

// The reply to the bytes of a line, or none where they are no line.
fn answer_line<H: Host, R: Words>(
    alloc: Global,
    host: &mut H,
    random: &mut R,
    desk: &mut Desk,
    bytes: &[u8],
) -> Result<Option<Reply>, Memory>
    ensures { BytesAnswered bytes.now result desk.old desk.new (H.state host.old) (H.state host.new) (R.state random.old) (R.state random.new) }
{
    match read_line(alloc, bytes) {
        Ok(line) => match desk.step(host, random, &line) {
            Ok(reply) => Ok(Some(reply)),
            Err(fault) => Err(fault),
        },
        Err(LineFault::BadLine) => Ok(None),
        Err(LineFault::Memory) => Err(Memory),
    }
}

// Answers the next line and writes the reply. Gives its status, or none after the last line.
fn answer_next<H: Host, S: Source, K: Sink, R: Words>(
    alloc: Global,
    host: &mut H,
    input: &mut S,
    out: &mut K,
    random: &mut R,
    reader: &mut LineReader,
    desk: &mut Desk,
) -> Result<Option<u8>, Fault<'static>>
    ensures { (log : SinkState) → NextGoes result (at desk.old reader.old (world_of (H.state host.old) (S.state input.old) (K.state out.old) log (R.state random.old)))
        (at desk.new reader.new (world_of (H.state host.new) (S.state input.new) (K.state out.new) log (R.state random.new))) }
{
    match reader.advance(input)? {
        NextLine::End => Ok(None),
        NextLine::TooLong => Ok(Some(say(out, &None)?)),
        NextLine::Whole => {
            let reply = answer_line(alloc, host, random, desk, reader.line())?;
            Ok(Some(say(out, &reply)?))
        }
    }
}

/// Answers all lines of the input, each before the next is read. Gives the status of the first that is not accepted, or 0.
pub(crate) fn answer_lines<H: Host, S: Source, K: Sink, R: Words>(
    alloc: Global,
    host: &mut H,
    input: &mut S,
    out: &mut K,
    random: &mut R,
    reader: &mut LineReader,
    desk: &mut Desk,
) -> Result<u8, Fault<'static>>
    requires { IsBounded reader.old }
    ensures { (log : SinkState) → LinesEnd result (at desk.old reader.old (world_of (H.state host.old) (S.state input.old) (K.state out.old) log (R.state random.old)))
        (at desk.new reader.new (world_of (H.state host.new) (S.state input.new) (K.state out.new) log (R.state random.new))) }
{
    let mut status = 0;
    while let Some(next) = answer_next(alloc, host, input, out, random, reader, desk)? {
        status = first_of(status, next);
    }
    Ok(status)
}
