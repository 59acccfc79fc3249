// A reader of std as a source.
ghost use Rattle.std.specs.Prelude.{◌≡◌, ◌<◌, length, take, IfOk, OnErr, None};
ghost use Rattle.std.specs.Io.KnownBytes.{Consumes, IsAtEnd, Keeps};
ghost use Rattle.pf_io.specs.Counts.{HasCause};
ghost use Rattle.pf_io.specs.Host.{KeepsRest};
ghost use Rattle.pf_io.specs.Streams.{CountsTaken, Gives};
ghost use Rattle.pf_io.specs.Std.{StdSourceState, source_of};

use crate::counts::{raise, raise_by};
use crate::{Source, StreamFault};
use std::io::{self, ErrorKind, Read};
use std::marker::Model;

const CHUNK: usize = 4096;

/// Standard input or another reader as a source, which tells its counts alone.
#[derive(Drop)]
pub struct StdSource<R: Read + Drop> {
    reader: R,
    faults: u64,
    taken: u64,
}

impl<R: Read + Drop> Model for StdSource<R> {
    ghost use Rattle.pf_io.specs.Std.{StdSourceState};

    ghost Value = { StdSourceState };

    ghost view = { λ s. record { faults = s.faults; taken = s.taken; remaining = R.remaining s.reader } };
}

impl<R: Read + Drop> StdSource<R> {
    /// A source that reads from `reader`, as `rt.stdin()`.
    pub fn new(reader: R) -> Self
        ensures { result ≡ record { faults = 0; taken = 0; remaining = R.remaining reader } }
    {
        StdSource {
            reader,
            faults: 0,
            taken: 0,
        }
    }
}

// Reads once, again where a signal came, and leaves what is behind the bytes that it read.
fn read_once<R: Read>(reader: &mut R, to: &mut [u8]) -> io::Result<usize>
    ensures rest { IfOk result (λ n. KeepsRest n to.old to.new) }
    ensures known { IfOk result (λ n. Consumes (R.remaining reader.old) (R.remaining reader.new) (take n to.new)) }
    ensures end { IfOk result (λ n. n ≡ 0 → 0 < length to.old → IsAtEnd (R.remaining reader.new)) }
    ensures kept { OnErr result (Keeps (R.remaining reader.old) (R.remaining reader.new)) }
{
    let mut chunk = [0; CHUNK];
    let room = CHUNK.min(to.len());
    for _ in 0..u64::MAX {
        match reader.read(&mut chunk[..room]) {
            Ok(n) => {
                to[..n].copy_from_slice(&chunk[..n]);
                return Ok(n);
            }
            Err(error) if error.kind() == ErrorKind::Interrupted => {}
            Err(error) => return Err(error),
        }
    }
    Err(ErrorKind::Interrupted.into())
}

impl<R: Read + Drop> Source for StdSource<R> {
    ghost state = { source_of };

    fn read(&mut self, to: &mut [u8]) -> Result<usize, StreamFault>
        ensures rest { IfOk result (λ n. KeepsRest n to.old to.new) }
        ensures cause { HasCause self.old.faults self.new.faults result }
        ensures taken { CountsTaken result self.old.taken self.new.taken }
        ensures left { Gives result to.new None None }
        ensures known { IfOk result (λ n. Consumes self.old.remaining self.new.remaining (take n to.new)) }
        ensures end { IfOk result (λ n. n ≡ 0 → 0 < length to.old → IsAtEnd self.new.remaining) }
        ensures kept { OnErr result (Keeps self.old.remaining self.new.remaining) }
    {
        match read_once(&mut self.reader, to) {
            Ok(n) => {
                raise_by(&mut self.taken, n);
                Ok(n)
            }
            Err(_) => {
                raise(&mut self.faults);
                Err(StreamFault)
            }
        }
    }
}
