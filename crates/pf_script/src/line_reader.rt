// The lines of a source, one by one.
ghost use Rattle.std.specs.Prelude.{◌≡◌, ◌≢◌, ◌+◌, ◌-◌, ◌<◌, ◌≤◌, ◌++◌, ◌∷◌, ◌↔◌, [], true, length, take, drop, IsTrue, IfOk};
ghost use Rattle.pf_script.specs.declared.stage.Stage.TheVariants as stages;
ghost use Rattle.pf_script.specs.Lines.{LINE_FEED, HasNoFeed};
ghost use Rattle.pf_script.specs.LineReading.{ReaderState, Fills, MakesRoom, CutsAt, Finishes, Advances, LinesGoOn, AnswersAgain};

use crate::buffer::{feed_in, move_to_front, read_behind};
use crate::reading::LONGEST_LINE;
use crate::{NextLine, Stage};
use pf_io::{Bytes, Memory, Source, StreamFault};
use std::alloc::Global;
use std::marker::Model;

// The longest line and its line feed.
const ROOM: usize = LONGEST_LINE + 1;

// The most reads of a source, each of which takes a byte.
const MOST_READS: u64 = 1 << 40;

/// A reader of a script's lines, in one buffer of 131,073 bytes that is made once.
///
/// Contracts see the line that was given last, the bytes that were taken and not given, the count of reads that took a
/// byte, and the stage.
#[derive(Drop)]
pub struct LineReader {
    buffer: Vec<u8>,
    line_start: usize,
    line_end: usize,
    start: usize,
    end: usize,
    reads: u64,
    stage: Stage,
}

impl Model for LineReader {
    ghost use Rattle.std.specs.Prelude.{◌≡◌, ◌-◌, ◌≤◌, ◌^◌, length, take, drop};
    ghost use Rattle.pf_script.specs.LineReading.{ReaderState};

    ghost Value = { ReaderState };

    ghost view = { λ r. record { line = take (r.line_end - r.line_start) (drop r.line_start r.buffer.items); pending = take (r.end - r.start) (drop r.start r.buffer.items); reads = r.reads; stage = r.stage } };

    ghost invariant = { λ r. (length r.buffer.items ≡ 131073) × (r.line_start ≤ r.line_end) × (r.line_end ≤ 131073) × (r.start ≤ r.end) × (r.end ≤ 131073) × (r.reads ≤ 2 ^ 40) };
}

impl LineReader {
    /// A reader that has taken nothing.
    pub fn new(alloc: Global) -> Result<LineReader, Memory>
        ensures { IfOk result (λ reader. reader ≡ record { line = []; pending = []; reads = 0; stage = stages.Open }) }
    {
        let buffer = Bytes::zeroed(alloc, ROOM)?;
        Ok(LineReader {
            buffer: buffer.into(),
            line_start: 0,
            line_end: 0,
            start: 0,
            end: 0,
            reads: 0,
            stage: Stage::Open,
        })
    }

    /// The line that was given last.
    pub fn line(&self) -> &[u8]
        ensures { result.now ≡ self.now.line }
    {
        &self.buffer[self.line_start..self.line_end]
    }

    // What was taken and not given.
    fn pending(&self) -> &[u8]
        ensures same { result.now ≡ self.now.pending }
        ensures few { length result.now ≤ 131073 }
    {
        &self.buffer[self.start..self.end]
    }

    // Gives what stands before a line feed, where nothing in front of it was dropped, and keeps what stands behind it.
    fn cut(&mut self, at: usize, long: bool) -> NextLine
        requires { at < length self.old.pending }
        ensures { CutsAt at long result self.old self.new }
    {
        let line_end = self.start + at;
        if long {
            self.start = line_end + 1;
            return NextLine::TooLong;
        }
        self.line_start = self.start;
        self.line_end = line_end;
        self.start = line_end + 1;
        NextLine::Whole
    }

    // Gives what is left, where it is anything and nothing in front of it was dropped.
    fn finish(&mut self, long: bool) -> NextLine
        ensures { Finishes long result self.old self.new }
    {
        if long {
            self.start = self.end;
            return NextLine::TooLong;
        }
        if self.start == self.end {
            return NextLine::End;
        }
        self.line_start = self.start;
        self.line_end = self.end;
        self.start = self.end;
        NextLine::Whole
    }

    // Empties a full buffer: its line is too long. Says whether the line is, which it may have been before.
    fn make_room(&mut self, long: bool) -> bool
        ensures { MakesRoom long self.old self.new result }
    {
        if self.end - self.start < ROOM {
            return long;
        }
        self.start = self.end;
        true
    }

    // Reads once. The answer 0 says that the source has ended.
    fn fill<S: Source>(&mut self, input: &mut S) -> Result<usize, StreamFault>
        requires { length self.old.pending ≤ 131072 }
        ensures { Fills result self.old self.new (S.state input.old) (S.state input.new) }
    {
        move_to_front(self.buffer.as_mut_slice(), self.start, self.end);
        self.end -= self.start;
        self.start = 0;
        self.line_start = 0;
        self.line_end = 0;
        if self.reads == MOST_READS {
            self.stage = Stage::Failed;
            return Err(StreamFault);
        }
        match read_behind(input, self.buffer.as_mut_slice(), self.end) {
            Ok(0) => {
                self.stage = Stage::Ended;
                Ok(0)
            }
            Ok(n) => {
                self.end += n;
                self.reads += 1;
                Ok(n)
            }
            Err(fault) => {
                self.stage = Stage::Failed;
                Err(fault)
            }
        }
    }

    // Reads up to the next line feed, or to the end.
    fn read_line<S: Source>(&mut self, input: &mut S) -> Result<NextLine, StreamFault>
        requires open { self.old.stage ≡ stages.Open }
        requires no_feed { HasNoFeed self.old.pending }
        ensures { Advances result self.old self.new (S.state input.old) (S.state input.new) }
    {
        let mut long = false;
        loop {
            long = self.make_room(long);
            let seen = self.pending().len();
            if self.fill(input)? == 0 {
                return Ok(self.finish(long));
            }
            if let Some(at) = feed_in(&self.pending()[seen..]) {
                return Ok(self.cut(seen + at, long));
            }
        }
    }

    /// Goes on to the next line of a source, and to no other source in later calls. It is there as `line` after `Whole`.
    /// One of more than 131,072 bytes is skipped to its end, and told as `TooLong`.
    ///
    /// Where a whole line was taken before, nothing is asked. A read that fails is answered, and so is the want of more
    /// bytes after 2^40 reads. After such a fault or the end nothing is asked again.
    pub fn advance<S: Source>(&mut self, input: &mut S) -> Result<NextLine, StreamFault>
        ensures advances { self.old.stage ≡ stages.Open → Advances result self.old self.new (S.state input.old) (S.state input.new) }
        ensures lines { self.old.stage ≡ stages.Open → LinesGoOn result self.old self.new (S.state input.old) (S.state input.new) }
        ensures at_once { ¬ (HasNoFeed self.old.pending) → input.new ≡ input.old }
        ensures again { self.old.stage ≢ stages.Open → AnswersAgain result self.old.stage × (self.new ≡ self.old) × (input.new ≡ input.old) }
    {
        match self.stage {
            Stage::Ended => return Ok(NextLine::End),
            Stage::Failed => return Err(StreamFault),
            Stage::Open => {}
        }
        if let Some(at) = feed_in(self.pending()) {
            return Ok(self.cut(at, false));
        }
        self.read_line(input)
    }
}
