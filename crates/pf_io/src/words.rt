// Random words behind a call that may fail.
ghost use Rattle.pf_io.specs.Counts.{HasCause};
ghost use Rattle.pf_io.specs.Words.{WordsState, TakesWord};

use crate::WordsFault;

/// Random words of 16 bytes.
pub trait Words {
    /// What is told: the count of faults, and where they are known the words left.
    ghost state: { Self → WordsState };

    /// The next word.
    fn next16(&mut self) -> Result<[u8; 16], WordsFault>
        ensures cause { HasCause (state self.old).faults (state self.new).faults result }
        ensures left { TakesWord result (state self.old).left (state self.new).left };
}
