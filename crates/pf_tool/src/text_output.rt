// A text that a command writes to the output.
ghost use Rattle.pf_io.specs.Unchanged.{KeepsDisk};
ghost use Rattle.pf_tool.specs.World.{World, with_out};
ghost use Rattle.pf_tool.specs.Outcomes.{ComesOut};
ghost use Rattle.pf_tool.specs.TextOutput.{PutsText};

use crate::fault::Fault;
use pf_io::Sink;

// The most bytes of a piece.
const PIECE: usize = 32_768;

/// Puts out a text in pieces of 32,768 bytes. An empty text is one empty piece, so an output that fails is noticed then, too.
pub(crate) fn put_text<K: Sink>(out: &mut K, text: &[u8]) -> Result<(), Fault<'static>>
    ensures { (world : World) → ComesOut (PutsText text.now) (λ _ _. KeepsDisk) result (with_out world (K.state out.old)) (with_out world (K.state out.new)) }
{
    for count in 0..text.len().div_ceil(PIECE).max(1) {
        let rest = &text[count * PIECE..];
        out.write(&rest[..rest.len().min(PIECE)])?;
    }
    Ok(())
}
