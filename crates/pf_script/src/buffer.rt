// The buffer of a reader of lines.
ghost use Rattle.std.specs.Prelude.{◌≡◌, ◌≢◌, ◌+◌, ◌-◌, ◌<◌, ◌≤◌, ◌++◌, [], length, take, drop, get_or, MatchOption, IfOk, Result, Ok, Err};
ghost use Rattle.pf_script.specs.Lines.{LINE_FEED, HasNoFeed};
ghost use Rattle.pf_script.specs.LineReading.{ReadsBehind};

use pf_io::{Source, StreamFault};

/// Where the first line feed stands.
pub(crate) fn feed_in(bytes: &[u8]) -> Option<usize>
    ensures { MatchOption result (HasNoFeed bytes.now) (λ at. (at < length bytes.now) × HasNoFeed (take at bytes.now) × (get_or bytes.now at 0 ≡ LINE_FEED)) }
{
    for (at, byte) in bytes.iter().enumerate() {
        if *byte == b'\n' {
            return Some(at);
        }
    }
    None
}

/// Moves the bytes between two places to the front.
pub(crate) fn move_to_front(buffer: &mut [u8], start: usize, end: usize)
    requires order { start ≤ end }
    requires inside { end ≤ length buffer.old }
    ensures length { length buffer.new ≡ length buffer.old }
    ensures moved { take (end - start) buffer.new ≡ take (end - start) (drop start buffer.old) }
{
    if start > 0 {
        buffer.copy_within(start..end, 0);
    }
}

/// Reads once, behind the bytes in front of a place.
pub(crate) fn read_behind<S: Source>(
    input: &mut S,
    buffer: &mut [u8],
    end: usize,
) -> Result<usize, StreamFault>
    requires { end < length buffer.old }
    ensures length { length buffer.new ≡ length buffer.old }
    ensures read { ReadsBehind result end buffer.old buffer.new (S.state input.old) (S.state input.new) }
{
    input.read(&mut buffer[end..])
}
