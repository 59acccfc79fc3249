// Streams of bytes behind calls that may fail.
ghost use Rattle.std.specs.Prelude.{IfOk};
ghost use Rattle.pf_io.specs.Counts.{HasCause};
ghost use Rattle.pf_io.specs.Host.{KeepsRest};
ghost use Rattle.pf_io.specs.Streams.{SourceState, SinkState, CountsTaken, Gives, Takes};

use crate::StreamFault;

/// A stream to read from.
pub trait Source {
    /// What the source tells: its counts of faults and of bytes taken, and where it knows them the bytes left.
    ghost state: { Self → SourceState };

    /// Reads into the front of `to`, and answers how many bytes. The answer 0, for room that is not empty, says that
    /// the stream has ended. After a fault the bytes of `to` may be any.
    fn read(&mut self, to: &mut [u8]) -> Result<usize, StreamFault>
        ensures rest { IfOk result (λ n. KeepsRest n to.old to.new) }
        ensures cause { HasCause (state self.old).faults (state self.new).faults result }
        ensures taken { CountsTaken result (state self.old).taken (state self.new).taken }
        ensures left { Gives result to.new (state self.old).left (state self.new).left };
}

/// A stream to write to.
pub trait Sink {
    /// What the sink tells: its count of faults, and where it knows them the bytes that it has taken.
    ghost state: { Self → SinkState };

    /// Writes all bytes, or fails after a front of them.
    fn write(&mut self, from: &[u8]) -> Result<(), StreamFault>
        ensures cause { HasCause (state self.old).faults (state self.new).faults result }
        ensures taken { Takes result from.now (state self.old).bytes (state self.new).bytes };
}
