// Rendering, part by part.
ghost use Rattle.std.specs.Prelude.{◌≡◌, ◌⊎◌, ◌≤◌, ℕ, List, Result, MatchResult, length, string_bytes};
ghost use Rattle.template_text.specs.declared.fault.RenderFault.{RenderFault as Fault};
ghost use Rattle.template_text.specs.declared.fault.RenderFault.TheVariants.{Memory as NoMemory};
ghost use Rattle.template_text.specs.Rendering.{Writes, Refuses, RefusesValue, RendersTo};
ghost use Rattle.template_text.specs.Pieces.{part_of, Added, Stops};
ghost use Rattle.template_text.specs.Indexes.{value_in};
ghost use Rattle.template_text.specs.Names.{IsValueName};

use crate::RenderFault;
use crate::blanks::without_blanks;
use crate::names::is_value_name;
use crate::pieces::{Piece, first_piece};
use crate::values::{Index, index_of, value_at};
use pf_io::Text;
use std::alloc::Global;

// The most bytes that a rendered text may have.
const LONGEST: usize = 16_777_216;

// The value of a name that stands at a place.
fn named<'a>(
    alloc: Global,
    index: &Index<'a>,
    at: usize,
    name: &str,
) -> Result<&'a str, RenderFault>
    ensures { MatchResult result (λ text. IsValueName name.now × (value_in index.now name.now ≡ Some text.now)) (λ fault. (fault ≡ NoMemory) ⊎ RefusesValue (value_in index.now) at name.now fault) }
{
    if !is_value_name(name) {
        return Err(RenderFault::BadName { at });
    }
    match value_at(index, name) {
        Some(value) => Ok(value),
        None => {
            let name = Text::copy(alloc, name)?;
            Err(RenderFault::Unknown { at, name })
        }
    }
}

// What a part at a place writes.
fn written_by<'a>(
    alloc: Global,
    index: &Index<'a>,
    at: usize,
    piece: Piece<'a>,
) -> Result<&'a str, RenderFault>
    ensures { MatchResult result (λ text. Writes (value_in index.now) (part_of piece.entry) text.now) (λ fault. (fault ≡ NoMemory) ⊎ Refuses (value_in index.now) at (part_of piece.entry) fault) }
{
    match piece {
        Piece::Copied(text) => Ok(text),
        Piece::Value(inside) => named(alloc, index, at, without_blanks(inside)),
        Piece::Comment(_) => Ok(""),
        Piece::Raw { content, .. } => Ok(content),
        Piece::Statement(_) => Err(RenderFault::Statement { at }),
        Piece::Unclosed(_) => Err(RenderFault::Unclosed { at }),
    }
}

// Writes a part at a place to the end of a text.
fn write_part<'a>(
    alloc: Global,
    index: &Index<'a>,
    at: usize,
    piece: Piece<'a>,
    text: &mut String,
) -> Result<(), RenderFault>
    requires { length (string_bytes text.old) ≤ LONGEST }
    ensures { MatchResult result (λ _. Added (value_in index.now) (part_of piece.entry) (string_bytes text.old) (string_bytes text.new)) (λ fault. Stops (value_in index.now) at (part_of piece.entry) (string_bytes text.old) fault) }
{
    let added = written_by(alloc, index, at, piece)?;
    if added.len() > LONGEST - text.len() {
        return Err(RenderFault::TooLong { at });
    }
    text.push_str(added)?;
    Ok(())
}

/// The text that a template is rendered to. Copied and raw text is written as it is, a value as the last pair with its
/// name has it, and nothing for a comment. The first part that is refused decides.
pub fn render(alloc: Global, text: &str, values: &[(Text, Text)]) -> Result<Text, RenderFault>
    ensures outcome { (result ≡ Err RenderFault.Memory) ⊎ RendersTo text.now values.now result }
    ensures no_other { (outcome : Result (List ℕ) Fault) → RendersTo text.now values.now outcome → (result ≡ Err RenderFault.Memory) ⊎ (result ≡ outcome) }
{
    let index = index_of(alloc, values)?;
    let mut rendered = String::new(alloc);
    let mut rest = text;
    while !rest.is_empty() {
        let at = text.len() - rest.len();
        let (piece, behind) = first_piece(rest);
        write_part(alloc, &index, at, piece, &mut rendered)?;
        rest = behind;
    }
    Ok(Text::from(rendered))
}
