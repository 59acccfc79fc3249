// The words of a line.
ghost use Rattle.std.specs.Prelude.{◌≡◌, ◌≢◌, ℕ, List, [], ◌∷◌, take, IfOk, MatchOption};
ghost use Rattle.enclave_measure.specs.Lines.{words_of};
ghost use Rattle.enclave_measure.specs.Words.{shown};

use pf_io::Memory;
use std::alloc::Global;

// No line of a layout has more words than 8.
const MOST_WORDS: usize = 8;

// The first word of a text, and what follows the space behind it.
fn first_word(text: &[u8]) -> (&[u8], Option<&[u8]>)
    ensures { MatchOption result.1 (words_of text.now ≡ result.0.now ∷ []) (λ rest. words_of text.now ≡ result.0.now ∷ words_of rest.now) }
{
    for (at, byte) in text.iter().enumerate() {
        if *byte == b' ' {
            return (&text[..at], Some(&text[at + 1..]));
        }
    }
    (text, None)
}

/// The words of a line, or the first nine of more.
pub(crate) fn words_of(alloc: Global, line: &[u8]) -> Result<Vec<&[u8]>, Memory>
    ensures { IfOk result (λ words. shown words.items ≡ take 9 (words_of line.now)) }
{
    let mut words = Vec::new(alloc);
    let mut rest = Some(line);
    for _ in 0..MOST_WORDS + 1 {
        let Some(text) = rest else {
            return Ok(words);
        };
        let (word, behind) = first_word(text);
        words.push(word)?;
        rest = behind;
    }
    Ok(words)
}

/// The words that follow the first one, where it is this one.
pub(crate) fn after_word<'w, 'a>(words: &'w [&'a [u8]], word: &[u8]) -> Option<&'w [&'a [u8]]>
    ensures { MatchOption result ((rest : List (List ℕ)) → shown words.now ≢ word.now ∷ rest) (λ rest. shown words.now ≡ word.now ∷ shown rest.now) }
{
    let [first, rest @ ..] = words else {
        return None;
    };
    if *first == word { Some(rest) } else { None }
}
