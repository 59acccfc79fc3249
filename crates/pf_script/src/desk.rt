// The desk of a script: its seats, and a step of it.
ghost use Rattle.std.specs.Prelude.{◌≡◌, ◌≢◌, ◌<◌, ◌↔◌, ℕ, List, IsTrue, IfSome, Ok, None, replicate};
ghost use Rattle.pf_io.specs.Host.{HostState};
ghost use Rattle.pf_io.specs.Words.{WordsState};
ghost use Rattle.pf_script.specs.BookTurns.{DeskBooked, EndBooked};
ghost use Rattle.pf_script.specs.Desk.{session_at};
ghost use Rattle.pf_script.specs.DeskSteps.{HasPath, OtherHas, DeskGoes, EndGoes};
ghost use Rattle.pf_script.specs.Script.{seat_of_line};
ghost use Rattle.pf_script.specs.Words.{SEATS as SEAT_COUNT};
ghost use Rattle.pf_script.specs.declared.line.ScriptLine.TheVariants as lines;

use crate::changing::{fill_bytes, set_size, write_bytes};
use crate::looking::read_bytes;
use crate::opening::{create_file, open_file, view_file};
use crate::renaming::move_file;
use crate::sealing::{close_seat, draw_nonce, flush_seat};
use crate::{Reply, ScriptLine};
use pf_io::{Host, Memory, Words};
use pf_session::Session;
use std::alloc::Global;
use std::marker::Model;

// How many seats there are.
const SEATS: usize = 8;

/// Eight seats, each of which is empty or holds an open protected file, under one key. No two have one name.
#[derive(Drop)]
pub struct Desk {
    alloc: Global,
    key: [u8; 16],
    seats: [Option<Session>; SEATS],
}

impl Model for Desk {
    ghost use Rattle.pf_script.specs.Desk.{DeskState, IsDesk};

    ghost Value = { DeskState };

    ghost view = { λ d. record { key = d.key; seats = d.seats } };

    ghost invariant = { λ d. IsDesk (record { key = d.key; seats = d.seats }) };
}

// Whether the seat has a file of this path.
fn has_path(seat: &Option<Session>, path: &str) -> bool
    ensures { IsTrue result ↔ HasPath seat.now path.now }
{
    match seat {
        Some(session) => session.path().bytes() == path.as_bytes(),
        None => false,
    }
}

impl Desk {
    /// Eight empty seats.
    pub fn new(alloc: Global, key: [u8; 16]) -> Desk
        ensures key { result.key ≡ key }
        ensures seats { result.seats ≡ replicate SEAT_COUNT None }
    {
        Desk {
            alloc,
            key,
            seats: [None, None, None, None, None, None, None, None],
        }
    }

    // Whether another seat has the name.
    fn is_taken(&self, seat: usize, name: &str) -> bool
        ensures { IsTrue result ↔ OtherHas self.now seat name.now }
    {
        for k in 0..SEATS {
            if k != seat && has_path(&self.seats[k], name) {
                return true;
            }
        }
        false
    }

    fn create<H: Host, R: Words>(
        &mut self,
        host: &mut H,
        random: &mut R,
        seat: u8,
        name: &str,
    ) -> Result<Reply, Memory>
        requires { seat < SEAT_COUNT }
        ensures goes { DeskGoes (lines.Create seat name.now) result self.old self.new (H.state host.old) (H.state host.new) (R.state random.old) (R.state random.new) }
        ensures booked { DeskBooked (lines.Create seat name.now) result self.old self.new (H.state host.old) (H.state host.new) (R.state random.old) (R.state random.new) }
    {
        let seat = seat as usize;
        let taken = self.is_taken(seat, name);
        let key = self.key;
        create_file(
            self.alloc,
            host,
            random,
            &key,
            &mut self.seats[seat],
            name,
            taken,
        )
    }

    fn open<H: Host>(&mut self, host: &mut H, seat: u8, name: &str) -> Result<Reply, Memory>
        requires { seat < SEAT_COUNT }
        ensures goes { (words : WordsState) → DeskGoes (lines.Open seat name.now) result self.old self.new (H.state host.old) (H.state host.new) words words }
        ensures booked { (words : WordsState) → DeskBooked (lines.Open seat name.now) result self.old self.new (H.state host.old) (H.state host.new) words words }
    {
        let seat = seat as usize;
        let taken = self.is_taken(seat, name);
        let key = self.key;
        open_file(self.alloc, host, &key, &mut self.seats[seat], name, taken)
    }

    fn view(&self, seat: u8) -> Reply
        requires { seat < SEAT_COUNT }
        ensures goes { (path : List ℕ) (host : HostState) (words : WordsState) → DeskGoes (lines.View seat path) (Ok result) self.now self.now host host words words }
        ensures booked { (path : List ℕ) (host : HostState) (words : WordsState) → DeskBooked (lines.View seat path) (Ok result) self.now self.now host host words words }
    {
        view_file(&self.seats[seat as usize])
    }

    fn read<H: Host>(
        &mut self,
        host: &mut H,
        seat: u8,
        at: u64,
        count: u64,
    ) -> Result<Reply, Memory>
        requires { seat < SEAT_COUNT }
        ensures goes { (words : WordsState) → DeskGoes (lines.Read seat at count) result self.old self.new (H.state host.old) (H.state host.new) words words }
        ensures booked { (words : WordsState) → DeskBooked (lines.Read seat at count) result self.old self.new (H.state host.old) (H.state host.new) words words }
    {
        read_bytes(self.alloc, host, &mut self.seats[seat as usize], at, count)
    }

    fn write<H: Host, R: Words>(
        &mut self,
        host: &mut H,
        random: &mut R,
        seat: u8,
        at: u64,
        bytes: &[u8],
    ) -> Result<Reply, Memory>
        requires { seat < SEAT_COUNT }
        ensures goes { DeskGoes (lines.Write seat at bytes.now) result self.old self.new (H.state host.old) (H.state host.new) (R.state random.old) (R.state random.new) }
        ensures booked { DeskBooked (lines.Write seat at bytes.now) result self.old self.new (H.state host.old) (H.state host.new) (R.state random.old) (R.state random.new) }
    {
        write_bytes(host, random, &mut self.seats[seat as usize], at, bytes)
    }

    fn fill<H: Host, R: Words>(
        &mut self,
        host: &mut H,
        random: &mut R,
        seat: u8,
        at: u64,
        count: u64,
        byte: u8,
    ) -> Result<Reply, Memory>
        requires { seat < SEAT_COUNT }
        ensures goes { DeskGoes (lines.Fill seat at count byte) result self.old self.new (H.state host.old) (H.state host.new) (R.state random.old) (R.state random.new) }
        ensures booked { DeskBooked (lines.Fill seat at count byte) result self.old self.new (H.state host.old) (H.state host.new) (R.state random.old) (R.state random.new) }
    {
        let alloc = self.alloc;
        fill_bytes(
            alloc,
            host,
            random,
            &mut self.seats[seat as usize],
            at,
            count,
            byte,
        )
    }

    fn resize<H: Host, R: Words>(
        &mut self,
        host: &mut H,
        random: &mut R,
        seat: u8,
        size: u64,
    ) -> Result<Reply, Memory>
        requires { seat < SEAT_COUNT }
        ensures goes { DeskGoes (lines.Size seat size) result self.old self.new (H.state host.old) (H.state host.new) (R.state random.old) (R.state random.new) }
        ensures booked { DeskBooked (lines.Size seat size) result self.old self.new (H.state host.old) (H.state host.new) (R.state random.old) (R.state random.new) }
    {
        set_size(host, random, &mut self.seats[seat as usize], size)
    }

    fn flush<H: Host, R: Words>(&mut self, host: &mut H, random: &mut R, seat: u8) -> Reply
        requires { seat < SEAT_COUNT }
        ensures goes { DeskGoes (lines.Flush seat) (Ok result) self.old self.new (H.state host.old) (H.state host.new) (R.state random.old) (R.state random.new) }
        ensures booked { DeskBooked (lines.Flush seat) (Ok result) self.old self.new (H.state host.old) (H.state host.new) (R.state random.old) (R.state random.new) }
    {
        flush_seat(host, random, &mut self.seats[seat as usize])
    }

    fn draw<R: Words>(&mut self, random: &mut R, seat: u8) -> Reply
        requires { seat < SEAT_COUNT }
        ensures goes { (host : HostState) → DeskGoes (lines.Draw seat) (Ok result) self.old self.new host host (R.state random.old) (R.state random.new) }
        ensures booked { (host : HostState) → DeskBooked (lines.Draw seat) (Ok result) self.old self.new host host (R.state random.old) (R.state random.new) }
    {
        draw_nonce(random, &mut self.seats[seat as usize])
    }

    fn rename<H: Host, R: Words>(
        &mut self,
        host: &mut H,
        random: &mut R,
        seat: u8,
        name: &str,
    ) -> Result<Reply, Memory>
        requires { seat < SEAT_COUNT }
        ensures goes { DeskGoes (lines.Move seat name.now) result self.old self.new (H.state host.old) (H.state host.new) (R.state random.old) (R.state random.new) }
        ensures booked { DeskBooked (lines.Move seat name.now) result self.old self.new (H.state host.old) (H.state host.new) (R.state random.old) (R.state random.new) }
    {
        let seat = seat as usize;
        let taken = self.is_taken(seat, name);
        move_file(self.alloc, host, random, &mut self.seats[seat], name, taken)
    }

    fn close<H: Host, R: Words>(&mut self, host: &mut H, random: &mut R, seat: u8) -> Reply
        requires { seat < SEAT_COUNT }
        ensures goes { DeskGoes (lines.Close seat) (Ok result) self.old self.new (H.state host.old) (H.state host.new) (R.state random.old) (R.state random.new) }
        ensures booked { DeskBooked (lines.Close seat) (Ok result) self.old self.new (H.state host.old) (H.state host.new) (R.state random.old) (R.state random.new) }
        ensures empty { session_at self.new seat ≡ None }
        ensures others { (other : ℕ) → other ≢ seat → session_at self.new other ≡ session_at self.old other }
    {
        close_seat(host, random, &mut self.seats[seat as usize])
    }

    /// Does what a line asks for, and replies to it.
    ///
    /// A refusal by rule leaves all seats as they were, and so does want of memory, but for further nodes that a session holds.
    /// A host fault or a damage of a change leaves its seat broken, and want of memory of a `write`, `fill` or `size` may do
    /// so too. A blank line, `view`, `flush`, `draw` and `close` want no memory.
    pub fn step<H: Host, R: Words>(
        &mut self,
        host: &mut H,
        random: &mut R,
        line: &ScriptLine,
    ) -> Result<Reply, Memory>
        requires { IfSome (seat_of_line line.now) (λ seat. seat < SEAT_COUNT) }
        ensures goes { DeskGoes line.now result self.old self.new (H.state host.old) (H.state host.new) (R.state random.old) (R.state random.new) }
        ensures booked { DeskBooked line.now result self.old self.new (H.state host.old) (H.state host.new) (R.state random.old) (R.state random.new) }
    {
        match line {
            ScriptLine::Blank => Ok(Reply::None),
            ScriptLine::Create { seat, name } => self.create(host, random, *seat, name.as_str()),
            ScriptLine::Open { seat, name } => self.open(host, *seat, name.as_str()),
            ScriptLine::View { seat, .. } => Ok(self.view(*seat)),
            ScriptLine::Read { seat, at, count } => self.read(host, *seat, *at, *count),
            ScriptLine::Write { seat, at, bytes } => {
                self.write(host, random, *seat, *at, bytes.as_slice())
            }
            ScriptLine::Fill {
                seat,
                at,
                count,
                byte,
            } => self.fill(host, random, *seat, *at, *count, *byte),
            ScriptLine::Size { seat, size } => self.resize(host, random, *seat, *size),
            ScriptLine::Flush { seat } => Ok(self.flush(host, random, *seat)),
            ScriptLine::Move { seat, name } => self.rename(host, random, *seat, name.as_str()),
            ScriptLine::Draw { seat } => Ok(self.draw(random, *seat)),
            ScriptLine::Close { seat } => Ok(self.close(host, random, *seat)),
        }
    }

    /// Empties a seat after the last line, with the reply to its closing, which is that of a line `close`. None exactly where
    /// it was empty; then nothing is asked.
    pub fn end<H: Host, R: Words>(
        &mut self,
        host: &mut H,
        random: &mut R,
        seat: u8,
    ) -> Option<Reply>
        requires { seat < SEAT_COUNT }
        ensures none { (result ≡ None) ↔ (session_at self.old seat ≡ None) }
        ensures empty { session_at self.new seat ≡ None }
        ensures others { (other : ℕ) → other ≢ seat → session_at self.new other ≡ session_at self.old other }
        ensures goes { EndGoes seat result self.old self.new (H.state host.old) (H.state host.new) (R.state random.old) (R.state random.new) }
        ensures booked { EndBooked seat result self.old self.new (H.state host.old) (H.state host.new) (R.state random.old) (R.state random.new) }
    {
        if self.seats[seat as usize].is_none() {
            return None;
        }
        Some(self.close(host, random, seat))
    }
}
