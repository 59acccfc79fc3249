// The marks of a template.
ghost use Rattle.std.specs.Prelude.{◌≡◌, ◌≤◌, true, take, drop, [], length, MatchOption};
ghost use Rattle.template_text.specs.Parts.{NoneIn, opens, ends_raw};
ghost use Rattle.template_text.specs.Pieces.{test_of, CutAtFirst, HasMark};

use crate::blanks::after_blanks;

/// What a search may stop at.
#[derive(Clone, Copy)]
pub(crate) enum Mark {
    /// One of `{{`, `{#` and `{%`.
    Opening,
    /// `}}`.
    ValueEnd,
    /// `#}`.
    CommentEnd,
    /// `%}`.
    StatementEnd,
    /// A statement `endraw`.
    Endraw,
}

#[tactic(auto, unfolding(crate::specs::Parts::opens))]
fn opens(bytes: &[u8]) -> bool
    ensures { result ≡ opens bytes.now }
{
    bytes.starts_with(b"{{") || bytes.starts_with(b"{#") || bytes.starts_with(b"{%")
}

#[tactic(auto, unfolding(crate::specs::Parts::ends_raw))]
fn ends_raw(bytes: &[u8]) -> bool
    ensures { result ≡ ends_raw bytes.now }
{
    if !bytes.starts_with(b"{%") {
        return false;
    }
    let word = after_blanks(&bytes[2..]);
    if !word.starts_with(b"endraw") {
        return false;
    }
    after_blanks(&word[6..]).starts_with(b"%}")
}

impl Mark {
    // Whether the bytes begin with it.
    #[tactic(auto, unfolding(crate::specs::Parts::closes_value, crate::specs::Parts::closes_comment, crate::specs::Parts::closes_statement))]
    fn begins(self, bytes: &[u8]) -> bool
        ensures { result ≡ test_of self bytes.now }
    {
        match self {
            Mark::Opening => opens(bytes),
            Mark::ValueEnd => bytes.starts_with(b"}}"),
            Mark::CommentEnd => bytes.starts_with(b"#}"),
            Mark::StatementEnd => bytes.starts_with(b"%}"),
            Mark::Endraw => ends_raw(bytes),
        }
    }

    // The place of the first one.
    fn find(self, bytes: &[u8]) -> Option<usize>
        ensures { MatchOption result (NoneIn (test_of self) bytes.now []) (λ at. (at ≤ length bytes.now) × NoneIn (test_of self) (take at bytes.now) (drop at bytes.now) × (test_of self (drop at bytes.now) ≡ true)) }
    {
        for at in 0..bytes.len() {
            if self.begins(&bytes[at..]) {
                return Some(at);
            }
        }
        None
    }
}

/// The text before the first mark, and from it on. `None` where there is none.
pub(crate) fn cut_at_first(text: &str, mark: Mark) -> Option<(&str, &str)>
    ensures { MatchOption result (NoneIn (test_of mark) text.now []) (λ found. CutAtFirst (test_of mark) text.now found.0.now found.1.now) }
{
    let at = mark.find(text.as_bytes())?;
    Some(text.split_at(at))
}

/// What follows a mark of two bytes.
pub(crate) fn past_mark(text: &str) -> &str
    requires { HasMark text.now }
    ensures { result.now ≡ drop 2 text.now }
{
    &text[2..]
}
