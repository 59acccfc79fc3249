// The fields of a line, by the word that it begins with.
ghost use Rattle.std.specs.Prelude.{◌≡◌, ℕ, List, MatchOption};
ghost use Rattle.pf_script.specs.declared.line.ScriptLine.{ScriptLine as Line};
ghost use Rattle.pf_script.specs.declared.line.ScriptLine.TheVariants as lines;
ghost use Rattle.pf_script.specs.declared.command.Command.{Command as Order};
ghost use Rattle.pf_script.specs.declared.fault.LineFault.TheVariants.{BadLine};
ghost use Rattle.pf_script.specs.Words.{IsRest};
ghost use Rattle.pf_script.specs.ScriptLines.{AfterSeat, AfterNumber, HasSeat, HasName, HasSize, HasRange, HasBytes, HasCopies, HasFields};
ghost use Rattle.pf_script.specs.Reading.{Reads};

use crate::command::Command;
use crate::words::{read_byte, read_hex, read_rest, read_seat, split_word};
use crate::{LineFault, ScriptLine};
use pf_io::{Text, read_number};
use std::alloc::Global;

// SEAT and what follows it.
fn seat_and_rest(fields: &[u8]) -> Option<(u8, &[u8])>
    ensures { MatchOption result ((seat : ℕ) (rest : List ℕ) → ¬ (AfterSeat fields.now seat rest)) (λ found. AfterSeat fields.now found.0 found.1.now) }
{
    let (word, rest) = split_word(fields)?;
    let seat = read_seat(word)?;
    Some((seat, rest))
}

// A number and what follows it.
fn number_and_rest(fields: &[u8]) -> Option<(u64, &[u8])>
    ensures { MatchOption result ((number : ℕ) (rest : List ℕ) → ¬ (AfterNumber fields.now number rest)) (λ found. AfterNumber fields.now found.0 found.1.now) }
{
    let (word, rest) = split_word(fields)?;
    let number = read_number(word)?;
    Some((number, rest))
}

// SEAT NAME
fn seat_and_name(fields: &[u8]) -> Option<(u8, &str)>
    ensures { MatchOption result
        ((seat : ℕ) (rest name : List ℕ) → AfterSeat fields.now seat rest → ¬ (IsRest rest name))
        (λ found. (rest : List ℕ) × AfterSeat fields.now found.0 rest × IsRest rest found.1.now) }
{
    let (seat, rest) = seat_and_rest(fields)?;
    let name = read_rest(rest)?;
    Some((seat, name))
}

fn read_create(alloc: Global, fields: &[u8]) -> Result<ScriptLine, LineFault>
    ensures { Reads (HasName lines.Create fields.now) result }
{
    let Some((seat, name)) = seat_and_name(fields) else {
        return Err(LineFault::BadLine);
    };
    let name = Text::copy(alloc, name)?;
    Ok(ScriptLine::Create { seat, name })
}

fn read_open(alloc: Global, fields: &[u8]) -> Result<ScriptLine, LineFault>
    ensures { Reads (HasName lines.Open fields.now) result }
{
    let Some((seat, name)) = seat_and_name(fields) else {
        return Err(LineFault::BadLine);
    };
    let name = Text::copy(alloc, name)?;
    Ok(ScriptLine::Open { seat, name })
}

fn read_view(alloc: Global, fields: &[u8]) -> Result<ScriptLine, LineFault>
    ensures { Reads (HasName lines.View fields.now) result }
{
    let Some((seat, path)) = seat_and_name(fields) else {
        return Err(LineFault::BadLine);
    };
    let path = Text::copy(alloc, path)?;
    Ok(ScriptLine::View { seat, path })
}

fn read_move(alloc: Global, fields: &[u8]) -> Result<ScriptLine, LineFault>
    ensures { Reads (HasName lines.Move fields.now) result }
{
    let Some((seat, name)) = seat_and_name(fields) else {
        return Err(LineFault::BadLine);
    };
    let name = Text::copy(alloc, name)?;
    Ok(ScriptLine::Move { seat, name })
}

fn read_range(fields: &[u8]) -> Option<ScriptLine>
    ensures { MatchOption result ((line : Line) → ¬ (HasRange fields.now line)) (HasRange fields.now) }
{
    let (seat, rest) = seat_and_rest(fields)?;
    let (at, rest) = number_and_rest(rest)?;
    let count = read_number(rest)?;
    Some(ScriptLine::Read { seat, at, count })
}

fn read_write(alloc: Global, fields: &[u8]) -> Result<ScriptLine, LineFault>
    ensures { Reads (HasBytes fields.now) result }
{
    let Some((seat, rest)) = seat_and_rest(fields) else {
        return Err(LineFault::BadLine);
    };
    let Some((at, rest)) = number_and_rest(rest) else {
        return Err(LineFault::BadLine);
    };
    let bytes = read_hex(alloc, rest)?;
    Ok(ScriptLine::Write { seat, at, bytes })
}

fn read_fill(fields: &[u8]) -> Option<ScriptLine>
    ensures { MatchOption result ((line : Line) → ¬ (HasCopies fields.now line)) (HasCopies fields.now) }
{
    let (seat, rest) = seat_and_rest(fields)?;
    let (at, rest) = number_and_rest(rest)?;
    let (count, rest) = number_and_rest(rest)?;
    let byte = read_byte(rest)?;
    Some(ScriptLine::Fill {
        seat,
        at,
        count,
        byte,
    })
}

fn read_size(fields: &[u8]) -> Option<ScriptLine>
    ensures { MatchOption result ((line : Line) → ¬ (HasSize fields.now line)) (HasSize fields.now) }
{
    let (seat, rest) = seat_and_rest(fields)?;
    let size = read_number(rest)?;
    Some(ScriptLine::Size { seat, size })
}

fn read_flush(fields: &[u8]) -> Option<ScriptLine>
    ensures { MatchOption result ((line : Line) → ¬ (HasSeat lines.Flush fields.now line)) (HasSeat lines.Flush fields.now) }
{
    let seat = read_seat(fields)?;
    Some(ScriptLine::Flush { seat })
}

fn read_draw(fields: &[u8]) -> Option<ScriptLine>
    ensures { MatchOption result ((line : Line) → ¬ (HasSeat lines.Draw fields.now line)) (HasSeat lines.Draw fields.now) }
{
    let seat = read_seat(fields)?;
    Some(ScriptLine::Draw { seat })
}

fn read_close(fields: &[u8]) -> Option<ScriptLine>
    ensures { MatchOption result ((line : Line) → ¬ (HasSeat lines.Close fields.now line)) (HasSeat lines.Close fields.now) }
{
    let seat = read_seat(fields)?;
    Some(ScriptLine::Close { seat })
}

// A line that takes no memory, or a bad one.
fn or_bad(line: Option<ScriptLine>) -> Result<ScriptLine, LineFault>
    ensures { MatchOption line (result ≡ Err BadLine) (λ line. result ≡ Ok line) }
{
    line.ok_or(LineFault::BadLine)
}

/// The line of a command with these fields.
pub(crate) fn read_fields(
    alloc: Global,
    command: Command,
    fields: &[u8],
) -> Result<ScriptLine, LineFault>
    ensures { Reads (HasFields command fields.now) result }
{
    match command {
        Command::Create => read_create(alloc, fields),
        Command::Open => read_open(alloc, fields),
        Command::View => read_view(alloc, fields),
        Command::Read => or_bad(read_range(fields)),
        Command::Write => read_write(alloc, fields),
        Command::Fill => or_bad(read_fill(fields)),
        Command::Size => or_bad(read_size(fields)),
        Command::Flush => or_bad(read_flush(fields)),
        Command::Move => read_move(alloc, fields),
        Command::Draw => or_bad(read_draw(fields)),
        Command::Close => or_bad(read_close(fields)),
    }
}
