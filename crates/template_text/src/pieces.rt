// The parts of a template, one after another.
ghost use Rattle.std.specs.Prelude.{◌≡◌, true, false, ◌<◌, length, codes};
ghost use Rattle.template_text.specs.Parts.{IsPart, IsStatement, without_blanks, spelled, begins, opens, statement};
ghost use Rattle.template_text.specs.Pieces.{part_of};

use crate::blanks::without_blanks;
use crate::marks::{Mark, cut_at_first, past_mark};

/// A part of a template.
#[derive(Clone, Copy)]
pub(crate) enum Piece<'a> {
    /// Text that is copied.
    Copied(&'a str),
    /// What stands between `{{` and `}}`.
    Value(&'a str),
    /// What stands between `{#` and `#}`.
    Comment(&'a str),
    /// What stands in the statement `raw`, behind it, and in the statement `endraw`.
    Raw {
        opening: &'a str,
        content: &'a str,
        closing: &'a str,
    },
    /// What stands in another statement.
    Statement(&'a str),
    /// Text that nothing closes.
    Unclosed(&'a str),
}

fn copied(text: &str) -> (Piece<'_>, &str)
    requires some { 0 < length text.now }
    requires plain { opens text.now ≡ false }
    ensures spelled { text.now ≡ spelled (part_of result.0) result.1.now }
    ensures placed { IsPart (part_of result.0) result.1.now }
{
    match cut_at_first(text, Mark::Opening) {
        Some((front, rest)) => (Piece::Copied(front), rest),
        None => (Piece::Copied(text), ""),
    }
}

fn value(text: &str) -> (Piece<'_>, &str)
    requires { begins (codes "{{") text.now ≡ true }
    ensures spelled { text.now ≡ spelled (part_of result.0) result.1.now }
    ensures placed { IsPart (part_of result.0) result.1.now }
{
    match cut_at_first(past_mark(text), Mark::ValueEnd) {
        Some((inside, rest)) => (Piece::Value(inside), past_mark(rest)),
        None => (Piece::Unclosed(text), ""),
    }
}

fn comment(text: &str) -> (Piece<'_>, &str)
    requires { begins (codes "{#") text.now ≡ true }
    ensures spelled { text.now ≡ spelled (part_of result.0) result.1.now }
    ensures placed { IsPart (part_of result.0) result.1.now }
{
    match cut_at_first(past_mark(text), Mark::CommentEnd) {
        Some((inside, rest)) => (Piece::Comment(inside), past_mark(rest)),
        None => (Piece::Unclosed(text), ""),
    }
}

// The raw text behind a statement `raw`.
fn raw<'a>(text: &'a str, opening: &'a str, behind: &'a str) -> (Piece<'a>, &'a str)
    requires text { text.now ≡ statement opening.now behind.now }
    requires opened { IsStatement opening.now behind.now }
    requires raw { without_blanks opening.now ≡ codes "raw" }
    ensures spelled { text.now ≡ spelled (part_of result.0) result.1.now }
    ensures placed { IsPart (part_of result.0) result.1.now }
{
    let Some((content, ending)) = cut_at_first(behind, Mark::Endraw) else {
        return (Piece::Unclosed(text), "");
    };
    match cut_at_first(past_mark(ending), Mark::StatementEnd) {
        Some((closing, rest)) => {
            let piece = Piece::Raw {
                opening,
                content,
                closing,
            };
            (piece, past_mark(rest))
        }
        None => unreachable!(),
    }
}

fn statement(text: &str) -> (Piece<'_>, &str)
    requires { begins (codes "{%") text.now ≡ true }
    ensures spelled { text.now ≡ spelled (part_of result.0) result.1.now }
    ensures placed { IsPart (part_of result.0) result.1.now }
{
    let Some((inside, behind)) = cut_at_first(past_mark(text), Mark::StatementEnd) else {
        return (Piece::Unclosed(text), "");
    };
    let behind = past_mark(behind);
    if without_blanks(inside) == "raw" {
        raw(text, inside, behind)
    } else {
        (Piece::Statement(inside), behind)
    }
}

/// The first part of a text, and what follows it.
pub(crate) fn first_piece(text: &str) -> (Piece<'_>, &str)
    requires { 0 < length text.now }
    ensures spelled { text.now ≡ spelled (part_of result.0) result.1.now }
    ensures placed { IsPart (part_of result.0) result.1.now }
{
    let bytes = text.as_bytes();
    if bytes.starts_with(b"{{") {
        value(text)
    } else if bytes.starts_with(b"{#") {
        comment(text)
    } else if bytes.starts_with(b"{%") {
        statement(text)
    } else {
        copied(text)
    }
}
