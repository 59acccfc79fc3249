// The lines of a layout, one after another.
ghost use Rattle.std.specs.Prelude.{◌≡◌, ◌+◌, ◌^◌, ◌<◌, ◌≤◌, ◌∷◌, [], length, MatchResult};
ghost use Rattle.enclave_measure.specs.Lines.{lines_of, is_skipped, read_after};

/// A line that is read, with its number, and the text that follows it.
#[derive(Clone, Copy)]
pub(crate) struct Line<'a> {
    pub number: u32,
    pub bytes: &'a [u8],
    pub rest: &'a [u8],
}

// The first line of a text, and what follows it.
fn first_line(text: &[u8]) -> (&[u8], &[u8])
    requires { 0 < length text.now }
    ensures lines { lines_of text.now ≡ result.0.now ∷ lines_of result.1.now }
    ensures shorter { length result.1.now < length text.now }
{
    for (at, byte) in text.iter().enumerate() {
        if *byte == b'\n' {
            return (&text[..at], &text[at + 1..]);
        }
    }
    (text, &[])
}

fn is_skipped(line: &[u8]) -> bool
    ensures { result ≡ is_skipped line.now }
{
    match line {
        [] => true,
        [first, ..] => *first == b'#',
    }
}

/// The first line that is read of a text that follows so many lines. Where there is none, the number of all lines.
pub(crate) fn next_line(text: &[u8], before: u32) -> Result<Line<'_>, u32>
    requires { before + length text.now < 2 ^ 32 }
    ensures { MatchResult result
        (λ line. (read_after before text.now ≡ (line.number, line.bytes.now) ∷ read_after line.number line.rest.now) × (line.number + length line.rest.now ≤ before + length text.now) × (length line.rest.now < length text.now))
        (λ count. (read_after before text.now ≡ []) × (count ≡ before + length (lines_of text.now))) }
{
    let mut rest = text;
    let mut number = before;
    while !rest.is_empty() {
        let (bytes, behind) = first_line(rest);
        number += 1;
        if !is_skipped(bytes) {
            return Ok(Line {
                number,
                bytes,
                rest: behind,
            });
        }
        rest = behind;
    }
    Err(number)
}
