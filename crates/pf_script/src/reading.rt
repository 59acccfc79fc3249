// The reading of a line.
ghost use Rattle.std.specs.Prelude.{IsTrue, ◌↔◌};
ghost use Rattle.pf_script.specs.ScriptLines.{IsBlank, IsScriptLine};
ghost use Rattle.pf_script.specs.Reading.{Reads};

use crate::command::command_of;
use crate::fields::read_fields;
use crate::words::split_word;
use crate::{LineFault, ScriptLine};
use std::alloc::Global;

// The most bytes that a line may have.
pub(crate) const LONGEST_LINE: usize = 131072;

fn is_blank(line: &[u8]) -> bool
    ensures { IsTrue result ↔ IsBlank line.now }
{
    match line {
        [] => true,
        [first, ..] => *first == b'#',
    }
}

/// The line that these bytes are, without the line feed behind them. `BadLine` exactly where they are none, or are more
/// than 131,072; `Memory` comes at want of memory alone.
pub fn read_line(alloc: Global, line: &[u8]) -> Result<ScriptLine, LineFault>
    ensures { Reads (IsScriptLine line.now) result }
{
    if line.len() > LONGEST_LINE {
        return Err(LineFault::BadLine);
    }
    if is_blank(line) {
        return Ok(ScriptLine::Blank);
    }
    let Some((word, fields)) = split_word(line) else {
        return Err(LineFault::BadLine);
    };
    let Some(command) = command_of(word) else {
        return Err(LineFault::BadLine);
    };
    read_fields(alloc, command, fields)
}
