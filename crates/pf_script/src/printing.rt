// The printing of replies. No memory is taken for it.
ghost use Rattle.std.specs.Prelude.{◌≡◌, ◌++◌, ◌≤◌, codes, length};
ghost use Rattle.std.specs.Fmt.{decimal};
ghost use Rattle.hex.specs.Hex.{encode_lower};
ghost use Rattle.pf_io.specs.Writing.{Written};
ghost use Rattle.pf_script.specs.declared.reply.Reply.TheVariants.{Written as WroteSome};
ghost use Rattle.pf_script.specs.Replies.{ended, kind_word, given_words, why_words, reply_text, Said};

use crate::{Reply, Why};
use itoa::Buffer;
use node_layout::Kind;
use pf_io::{Sink, StreamFault};

// How many bytes are printed at once in hexadecimal.
const PIECE: usize = 2048;

fn write_line<K: Sink>(out: &mut K, text: &str) -> Result<(), StreamFault>
    ensures { Written result (ended text.now) (K.state out.old) (K.state out.new) }
{
    out.write(text.as_bytes())?;
    out.write(b"\n")
}

// A line of two texts.
fn write_name<K: Sink>(out: &mut K, text: &str, name: &str) -> Result<(), StreamFault>
    ensures { Written result (ended (text.now ++ name.now)) (K.state out.old) (K.state out.new) }
{
    out.write(text.as_bytes())?;
    write_line(out, name)
}

// A line of a text and a number.
fn write_number<K: Sink>(out: &mut K, text: &str, number: u64) -> Result<(), StreamFault>
    ensures { Written result (ended (text.now ++ decimal number)) (K.state out.old) (K.state out.new) }
{
    let mut digits = Buffer::new();
    write_name(out, text, digits.format(number))
}

// A line of a text, a number and another text.
fn write_count<K: Sink>(out: &mut K, text: &str, number: u64, rest: &str) -> Result<(), StreamFault>
    ensures { Written result (ended (text.now ++ decimal number ++ rest.now)) (K.state out.old) (K.state out.new) }
{
    out.write(text.as_bytes())?;
    let mut digits = Buffer::new();
    write_name(out, digits.format(number), rest)
}

fn write_version<K: Sink>(out: &mut K, major: u8, minor: u8) -> Result<(), StreamFault>
    ensures { Written result (ended (codes "refused version " ++ decimal major ++ codes "." ++ decimal minor)) (K.state out.old) (K.state out.new) }
{
    out.write(b"refused version ")?;
    let mut digits = Buffer::new();
    out.write(digits.format(major).as_bytes())?;
    write_number(out, ".", minor as u64)
}

// A few bytes in hexadecimal.
fn write_piece<K: Sink>(out: &mut K, piece: &[u8]) -> Result<(), StreamFault>
    requires { length piece.now ≤ 2048 }
    ensures { Written result (encode_lower piece.now) (K.state out.old) (K.state out.new) }
{
    let mut buffer = [0; 2 * PIECE];
    let digits = &mut buffer[..2 * piece.len()];
    match hex::encode_to_slice(piece, digits) {
        Ok(()) => out.write(digits),
        Err(_) => unreachable!(),
    }
}

// Bytes in hexadecimal.
fn write_hex<K: Sink>(out: &mut K, bytes: &[u8]) -> Result<(), StreamFault>
    ensures { Written result (encode_lower bytes.now) (K.state out.old) (K.state out.new) }
{
    let mut rest = bytes;
    while !rest.is_empty() {
        let (piece, behind) = rest.split_at(PIECE.min(rest.len()));
        write_piece(out, piece)?;
        rest = behind;
    }
    Ok(())
}

// A line of a text and of bytes in hexadecimal.
fn write_digits<K: Sink>(out: &mut K, text: &str, bytes: &[u8]) -> Result<(), StreamFault>
    ensures { Written result (ended (text.now ++ encode_lower bytes.now)) (K.state out.old) (K.state out.new) }
{
    out.write(text.as_bytes())?;
    write_hex(out, bytes)?;
    out.write(b"\n")
}

fn write_given<K: Sink>(out: &mut K, bytes: &[u8]) -> Result<(), StreamFault>
    ensures { Written result (ended (given_words bytes.now)) (K.state out.old) (K.state out.new) }
{
    if bytes.is_empty() {
        return write_line(out, "ok read 0");
    }
    out.write(b"ok read ")?;
    let mut digits = Buffer::new();
    out.write(digits.format(bytes.len()).as_bytes())?;
    write_digits(out, " ", bytes)
}

fn write_refusal<K: Sink>(out: &mut K, why: &Why) -> Result<(), StreamFault>
    ensures { Written result (ended (why_words why.now)) (K.state out.old) (K.state out.new) }
{
    match why {
        Why::SeatBusy => write_line(out, "refused seat busy"),
        Why::SeatEmpty => write_line(out, "refused seat empty"),
        Why::NameBusy => write_line(out, "refused name busy"),
        Why::BadName => write_line(out, "refused bad name"),
        Why::NotProtected => write_line(out, "refused not protected"),
        Why::TooLong => write_line(out, "refused too long"),
        Why::TooLarge => write_line(out, "refused too large"),
        Why::ReadOnly => write_line(out, "refused read-only"),
        Why::Broken => write_line(out, "refused broken"),
        Why::TargetExists => write_line(out, "refused target exists"),
        Why::NoManifest => write_line(out, "refused no manifest"),
        Why::BadPath => write_line(out, "refused bad path"),
        Why::NoHostFile => write_line(out, "refused no host file"),
        Why::Exists { name } => write_name(out, "refused exists ", name.as_str()),
        Why::NotFound { name } => write_name(out, "refused not found ", name.as_str()),
        Why::Unbuilt => write_line(out, "refused unbuilt"),
        Why::BadVersion { major, minor } => write_version(out, *major, *minor),
        Why::WrongPath { stored } => write_name(out, "refused wrong path ", stored.as_str()),
        Why::PastEnd { size } => write_number(out, "refused past end ", *size),
        Why::Denied { uri } => write_name(out, "refused denied ", uri.as_str()),
        Why::NoSum { uri } => write_name(out, "refused no sum ", uri.as_str()),
        Why::NoKey { name } => write_name(out, "refused no key ", name.as_str()),
        Why::WrongSum { found } => write_digits(out, "refused wrong sum ", found),
    }
}

// A node's place, and what is wrong with it.
fn write_damage<K: Sink>(out: &mut K, node: u64, kind: Kind) -> Result<(), StreamFault>
    ensures { Written result (ended (codes "damaged node " ++ decimal node ++ codes " " ++ kind_word kind)) (K.state out.old) (K.state out.new) }
{
    let word = match kind {
        Kind::Short => " short",
        Kind::Tag => " tag",
        Kind::Text => " text",
        Kind::Log => " log",
    };
    write_count(out, "damaged node ", node, word)
}

// How much was written, and whether there was a flush before.
fn write_written<K: Sink>(out: &mut K, count: u64, flushed: bool) -> Result<(), StreamFault>
    ensures { Written result (reply_text (WroteSome count flushed)) (K.state out.old) (K.state out.new) }
{
    if flushed {
        return write_count(out, "ok write ", count, " flushed");
    }
    write_number(out, "ok write ", count)
}

/// Prints a reply: one line. Nothing is asked of the sink for `Reply::None`.
pub fn write_reply<K: Sink>(out: &mut K, reply: &Reply) -> Result<(), StreamFault>
    ensures { Said result (reply_text reply.now) (K.state out.old) (K.state out.new) }
{
    match reply {
        Reply::None => Ok(()),
        Reply::Created => write_line(out, "ok create"),
        Reply::Opened { size } => write_number(out, "ok open ", *size),
        Reply::Viewed { size, .. } => write_number(out, "ok view ", *size),
        Reply::Given { bytes } => write_given(out, bytes.as_slice()),
        Reply::Written { count, flushed } => write_written(out, *count, *flushed),
        Reply::Sized { size } => write_number(out, "ok size ", *size),
        Reply::Flushed => write_line(out, "ok flush"),
        Reply::Moved => write_line(out, "ok move"),
        Reply::Drawn { nonce } => write_digits(out, "ok draw ", nonce),
        Reply::Closed { lost: false } => write_line(out, "ok close"),
        Reply::Closed { lost: true } => write_line(out, "ok close lost"),
        Reply::Refused { why } => write_refusal(out, why),
        Reply::DamagedNode { damage } => write_damage(out, damage.node, damage.kind),
        Reply::DamagedChunk { chunk } => write_number(out, "damaged chunk ", *chunk as u64),
        Reply::HostFault => write_line(out, "host fault"),
        Reply::WordsFault => write_line(out, "random fault"),
    }
}
