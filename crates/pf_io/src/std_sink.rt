// A writer of std as a sink.
ghost use Rattle.std.specs.Prelude.{◌≡◌, OnOk, OnErr, None};
ghost use Rattle.std.specs.Io.KnownBytes.{Appends};
ghost use Rattle.pf_io.specs.Counts.{HasCause};
ghost use Rattle.pf_io.specs.Streams.{Takes};
ghost use Rattle.pf_io.specs.Std.{StdSinkState, sink_of};

use crate::counts::raise;
use crate::{Sink, StreamFault};
use std::io;
use std::io::Write;
use std::marker::Model;

/// Standard output, standard error or another writer as a sink, which tells its count of faults alone. Each write is
/// flushed.
#[derive(Drop)]
pub struct StdSink<W: Write + Drop> {
    writer: W,
    faults: u64,
}

impl<W: Write + Drop> Model for StdSink<W> {
    ghost use Rattle.pf_io.specs.Std.{StdSinkState};

    ghost Value = { StdSinkState };

    ghost view = { λ s. record { faults = s.faults; contents = W.contents s.writer } };
}

impl<W: Write + Drop> StdSink<W> {
    /// A sink that writes to `writer`, as `rt.stdout()` or `rt.stderr()`.
    pub fn new(writer: W) -> Self
        ensures { result ≡ record { faults = 0; contents = W.contents writer } }
    {
        StdSink { writer, faults: 0 }
    }
}

// Writes all and flushes.
fn write_out<W: Write>(writer: &mut W, from: &[u8]) -> io::Result<()>
    ensures { OnOk result (Appends (W.contents writer.old) (W.contents writer.new) from.now) }
{
    writer.write_all(from)?;
    writer.flush()
}

impl<W: Write + Drop> Sink for StdSink<W> {
    ghost state = { sink_of };

    fn write(&mut self, from: &[u8]) -> Result<(), StreamFault>
        ensures cause { HasCause self.old.faults self.new.faults result }
        ensures taken { Takes result from.now None None }
        ensures written { OnOk result (Appends self.old.contents self.new.contents from.now) }
    {
        match write_out(&mut self.writer, from) {
            Ok(()) => Ok(()),
            Err(_) => {
                raise(&mut self.faults);
                Err(StreamFault)
            }
        }
    }
}
