// The words that lines begin with.
ghost use Rattle.std.specs.Prelude.{◌≡◌, ◌≢◌, MatchOption};
ghost use Rattle.pf_script.specs.declared.command.Command.{Command as Order};
ghost use Rattle.pf_script.specs.ScriptLines.{word_of};

/// What a line asks for.
#[derive(Clone, Copy)]
pub(crate) enum Command {
    Create,
    Open,
    View,
    Read,
    Write,
    Fill,
    Size,
    Flush,
    Move,
    Draw,
    Close,
}

/// The command of a word.
pub(crate) fn command_of(word: &[u8]) -> Option<Command>
    ensures { MatchOption result ((command : Order) → word.now ≢ word_of command) (λ command. word.now ≡ word_of command) }
{
    match word {
        b"create" => Some(Command::Create),
        b"open" => Some(Command::Open),
        b"view" => Some(Command::View),
        b"read" => Some(Command::Read),
        b"write" => Some(Command::Write),
        b"fill" => Some(Command::Fill),
        b"size" => Some(Command::Size),
        b"flush" => Some(Command::Flush),
        b"move" => Some(Command::Move),
        b"draw" => Some(Command::Draw),
        b"close" => Some(Command::Close),
        _ => None,
    }
}
