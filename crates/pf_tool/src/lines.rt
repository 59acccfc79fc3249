// The lines that go to the log.
ghost use Rattle.std.specs.Prelude.{◌≡◌, ◌+◌, ◌≤◌, ◌++◌, IfSome, length, take, codes};
ghost use Rattle.std.specs.Fmt.{decimal};
ghost use Rattle.pf_tool.specs.Endings.{line};
ghost use Rattle.pf_tool.specs.Reports.{Written};

use itoa::Buffer;
use pf_io::{Sink, StreamFault};

// The longest line that goes out in one write.
const LONGEST_LINE: usize = 1024;

// Puts bytes into a buffer from a place on.
fn put(to: &mut [u8; LONGEST_LINE], at: usize, bytes: &[u8])
    requires { at + length bytes.now ≤ 1024 }
    ensures { take (at + length bytes.now) to.new ≡ take at to.old ++ bytes.now }
{
    to[at..at + bytes.len()].copy_from_slice(bytes);
}

// Puts the line of four texts into a buffer, where it fits, and answers its length.
fn put_line(
    to: &mut [u8; LONGEST_LINE],
    first: &str,
    second: &str,
    third: &str,
    fourth: &str,
) -> Option<usize>
    ensures { IfSome result (λ n. (n ≤ length to.new) × (take n to.new ≡ line (first.now ++ second.now ++ third.now ++ fourth.now))) }
{
    let at_third = first.len().saturating_add(second.len());
    let at_fourth = at_third.saturating_add(third.len());
    let len = at_fourth.saturating_add(fourth.len());
    if len >= LONGEST_LINE {
        return None;
    }
    put(to, 0, first.as_bytes());
    put(to, first.len(), second.as_bytes());
    put(to, at_third, third.as_bytes());
    put(to, at_fourth, fourth.as_bytes());
    put(to, len, b"\n");
    Some(len + 1)
}

// A line of four texts, in parts.
fn write_parts<L: Sink>(
    log: &mut L,
    first: &str,
    second: &str,
    third: &str,
    fourth: &str,
) -> Result<(), StreamFault>
    ensures { Written result (line (first.now ++ second.now ++ third.now ++ fourth.now)) (L.state log.old) (L.state log.new) }
{
    log.write(first.as_bytes())?;
    log.write(second.as_bytes())?;
    log.write(third.as_bytes())?;
    log.write(fourth.as_bytes())?;
    log.write(b"\n")
}

// A line of four texts, in one write, so that the lines of several runs do not mix. A longer one goes out in parts.
fn write_line<L: Sink>(
    log: &mut L,
    first: &str,
    second: &str,
    third: &str,
    fourth: &str,
) -> Result<(), StreamFault>
    ensures { Written result (line (first.now ++ second.now ++ third.now ++ fourth.now)) (L.state log.old) (L.state log.new) }
{
    let mut line = [0; LONGEST_LINE];
    match put_line(&mut line, first, second, third, fourth) {
        Some(len) => log.write(&line[..len]),
        None => write_parts(log, first, second, third, fourth),
    }
}

/// Writes a line of one text.
pub(crate) fn write_text<L: Sink>(log: &mut L, text: &str) -> Result<(), StreamFault>
    ensures { Written result (line text.now) (L.state log.old) (L.state log.new) }
{
    write_line(log, text, "", "", "")
}

/// Writes a line of a text and a name.
pub(crate) fn write_name<L: Sink>(log: &mut L, text: &str, name: &str) -> Result<(), StreamFault>
    ensures { Written result (line (text.now ++ name.now)) (L.state log.old) (L.state log.new) }
{
    write_line(log, text, name, "", "")
}

/// Writes a line of a text, a number, for whose digits no memory is taken, and another text.
pub(crate) fn write_number<L: Sink>(
    log: &mut L,
    text: &str,
    number: u64,
    rest: &str,
) -> Result<(), StreamFault>
    ensures { Written result (line (text.now ++ decimal number ++ rest.now)) (L.state log.old) (L.state log.new) }
{
    let mut digits = Buffer::new();
    write_line(log, text, digits.format(number), rest, "")
}

/// Writes a line of a text, a name, another text, and a number, for whose digits no memory is taken.
pub(crate) fn write_name_number<L: Sink>(
    log: &mut L,
    text: &str,
    name: &str,
    between: &str,
    number: u64,
) -> Result<(), StreamFault>
    ensures { Written result (line (text.now ++ name.now ++ between.now ++ decimal number)) (L.state log.old) (L.state log.new) }
{
    let mut digits = Buffer::new();
    write_line(log, text, name, between, digits.format(number))
}

/// Writes a line of a text and two numbers with a point between them, for whose digits no memory is taken.
pub(crate) fn write_version<L: Sink>(
    log: &mut L,
    text: &str,
    major: u64,
    minor: u64,
) -> Result<(), StreamFault>
    ensures { Written result (line (text.now ++ decimal major ++ codes "." ++ decimal minor)) (L.state log.old) (L.state log.new) }
{
    let mut digits = Buffer::new();
    let mut others = Buffer::new();
    write_line(log, text, digits.format(major), ".", others.format(minor))
}
