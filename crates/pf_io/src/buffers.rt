// Streams in memory.
ghost use Rattle.std.specs.Prelude.{◌≡◌, ◌++◌, ◌↔◌, ◌≤◌, IsTrue, IfOk, OnErr, Some, None, [], length, min};
ghost use Rattle.pf_io.specs.Counts.{HasCause, counted, counted_by};
ghost use Rattle.pf_io.specs.Host.{KeepsRest};
ghost use Rattle.pf_io.specs.Streams.{CountsTaken, Gives, Takes};
ghost use Rattle.pf_io.specs.Buffers.{MemSourceState, source_of, IsRead, MemSinkState, sink_of, IsWrite};

use crate::counts::{raise, raise_by};
use crate::storage::copy_from;
use crate::{Bytes, Sink, Source, StreamFault};
use std::alloc::Global;
use std::marker::Model;

/// A source of bytes in memory: it tells the bytes left.
#[derive(Drop)]
pub struct MemSource {
    bytes: Bytes,
    place: usize,
    calls: u64,
    failing: Option<u64>,
    faults: u64,
    taken: u64,
}

impl Model for MemSource {
    ghost use Rattle.std.specs.Prelude.{◌≤◌, length, drop};
    ghost use Rattle.pf_io.specs.Buffers.{MemSourceState};

    ghost Value = { MemSourceState };

    ghost view = { λ s. record { faults = s.faults; taken = s.taken; left = drop s.place s.bytes; calls = s.calls; failing = s.failing } };

    ghost invariant = { λ s. s.place ≤ length s.bytes };
}

impl MemSource {
    /// A source of these bytes, of which none was read.
    pub fn new(bytes: Bytes) -> Self
        ensures { result ≡ record { faults = 0; taken = 0; left = bytes; calls = 0; failing = None } }
    {
        MemSource {
            bytes,
            place: 0,
            calls: 0,
            failing: None,
            faults: 0,
            taken: 0,
        }
    }

    /// From now on the read with this number, counted from 0, is a counted fault that takes nothing and leaves the
    /// buffer, and no other is.
    pub fn fail_at(&mut self, call: u64)
        ensures { self.new ≡ record self.old { failing = Some call } }
    {
        self.failing = Some(call);
    }
}

// Counts a call, and says whether it is to fail.
fn is_failing(calls: &mut u64, failing: Option<u64>) -> bool
    ensures failing { IsTrue result ↔ (failing ≡ Some calls.old) }
    ensures counts { calls.new ≡ counted calls.old }
{
    let call = *calls;
    raise(calls);
    failing == Some(call)
}

impl Source for MemSource {
    ghost state = { source_of };

    fn read(&mut self, to: &mut [u8]) -> Result<usize, StreamFault>
        ensures rest { IfOk result (λ n. KeepsRest n to.old to.new) }
        ensures cause { HasCause self.old.faults self.new.faults result }
        ensures taken { CountsTaken result self.old.taken self.new.taken }
        ensures left { Gives result to.new (Some self.old.left) (Some self.new.left) }
        ensures count { IfOk result (λ n. n ≡ min (length to.old) (length self.old.left)) }
        ensures untouched { OnErr result (to.new ≡ to.old) }
        ensures call { IsRead result self.old self.new }
    {
        if is_failing(&mut self.calls, self.failing) {
            raise(&mut self.faults);
            return Err(StreamFault);
        }
        let n = copy_from(self.bytes.as_slice(), self.place, to);
        self.place += n;
        raise_by(&mut self.taken, n);
        Ok(n)
    }
}

/// A sink of bytes in memory: it tells the bytes that it has taken.
#[derive(Drop)]
pub struct MemSink {
    bytes: Vec<u8>,
    calls: u64,
    failing: Option<u64>,
    faults: u64,
    starved: u64,
}

impl Model for MemSink {
    ghost use Rattle.pf_io.specs.Buffers.{MemSinkState};

    ghost Value = { MemSinkState };

    ghost view = { λ s. record { faults = s.faults; bytes = s.bytes.items; calls = s.calls; failing = s.failing; starved = s.starved } };
}

impl MemSink {
    /// A sink that has taken nothing.
    pub fn new(alloc: Global) -> Self
        ensures { result ≡ record { faults = 0; bytes = []; calls = 0; failing = None; starved = 0 } }
    {
        MemSink {
            bytes: Vec::new(alloc),
            calls: 0,
            failing: None,
            faults: 0,
            starved: 0,
        }
    }

    /// All that the sink has taken.
    pub fn bytes(&self) -> &[u8]
        ensures { result.now ≡ self.now.bytes }
    {
        self.bytes.as_slice()
    }

    /// From now on the write with this number, counted from 0, is a counted fault that takes nothing.
    pub fn fail_at(&mut self, call: u64)
        ensures { self.new ≡ record self.old { failing = Some call } }
    {
        self.failing = Some(call);
    }

    /// How many writes found no memory; each was a counted fault that took nothing.
    pub fn starved(&self) -> u64
        ensures { result ≡ self.now.starved }
    {
        self.starved
    }
}

impl Sink for MemSink {
    ghost state = { sink_of };

    fn write(&mut self, from: &[u8]) -> Result<(), StreamFault>
        ensures cause { HasCause self.old.faults self.new.faults result }
        ensures taken { Takes result from.now (Some self.old.bytes) (Some self.new.bytes) }
        ensures call { IsWrite result self.old self.new }
    {
        if is_failing(&mut self.calls, self.failing) {
            raise(&mut self.faults);
            return Err(StreamFault);
        }
        match self.bytes.extend_from_slice(from) {
            Ok(()) => Ok(()),
            Err(_) => {
                raise(&mut self.faults);
                raise(&mut self.starved);
                Err(StreamFault)
            }
        }
    }
}
