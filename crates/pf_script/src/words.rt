// The words of a line.
ghost use Rattle.std.specs.Prelude.{◌≡◌, ℕ, List, MatchOption};
ghost use Rattle.pf_script.specs.Words.{spaced, HasNoSpace, IsSeat, IsHex, IsByte, IsRest};
ghost use Rattle.pf_script.specs.Reading.{Reads};

use crate::LineFault;
use hex::FromHexError;
use pf_io::Bytes;
use std::alloc::Global;

/// The text before the first space, and the text behind it.
pub(crate) fn split_word(text: &[u8]) -> Option<(&[u8], &[u8])>
    ensures { MatchOption result (HasNoSpace text.now) (λ parts. (text.now ≡ spaced parts.0.now parts.1.now) × HasNoSpace parts.0.now) }
{
    for (at, byte) in text.iter().enumerate() {
        if *byte == b' ' {
            return Some((&text[..at], &text[at + 1..]));
        }
    }
    None
}

/// The seat that a word names.
pub(crate) fn read_seat(word: &[u8]) -> Option<u8>
    ensures { MatchOption result ((seat : ℕ) → ¬ (IsSeat word.now seat)) (IsSeat word.now) }
{
    match word {
        [digit @ b'0'..=b'7'] => Some(*digit - b'0'),
        _ => None,
    }
}

/// The text of the rest of a line, where it may be a name or a path.
pub(crate) fn read_rest(rest: &[u8]) -> Option<&str>
    ensures { MatchOption result ((name : List ℕ) → ¬ (IsRest rest.now name)) (λ name. IsRest rest.now name.now) }
{
    if rest.is_empty() {
        return None;
    }
    str::from_utf8(rest).ok()
}

/// The bytes that a word of hexadecimal digits spells.
pub(crate) fn read_hex(alloc: Global, word: &[u8]) -> Result<Bytes, LineFault>
    ensures { Reads (IsHex word.now) result }
{
    if word.is_empty() {
        return Err(LineFault::BadLine);
    }
    match hex::decode(alloc, word) {
        Ok(bytes) => Ok(bytes.into()),
        Err(FromHexError::OutOfMemory) => Err(LineFault::Memory),
        Err(_) => Err(LineFault::BadLine),
    }
}

/// The byte that two hexadecimal digits spell.
pub(crate) fn read_byte(word: &[u8]) -> Option<u8>
    ensures { MatchOption result ((byte : ℕ) → ¬ (IsByte word.now byte)) (IsByte word.now) }
{
    let mut byte = [0];
    match hex::decode_to_slice(word, &mut byte) {
        Ok(()) => Some(byte[0]),
        Err(_) => None,
    }
}
