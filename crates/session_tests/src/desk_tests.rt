//! Scripts on a desk over a host in memory.
ghost use Rattle.std.specs.Prelude.{◌<◌, IsTrue, IfSome};
ghost use Rattle.pf_script.specs.Script.{seat_of_line};

use crate::fixtures::{add_words, words_of};
use pf_io::{ListWords, MemHost, MemSink, Memory};
use pf_script::{Desk, LineFault, Reply, ScriptLine, Why, read_line, write_reply};
use std::alloc::Global;
use std::process::Abort;
use std::test::Fail;

const KEY: [u8; 16] = [0, 1, 2, 3, 4, 5, 6, 7, 8, 9, 10, 11, 12, 13, 14, 15];

fn is_below(line: &ScriptLine) -> bool
    ensures { IsTrue result → IfSome (seat_of_line line.now) (λ seat. seat < 8) }
{
    match line {
        ScriptLine::Blank => true,
        ScriptLine::Create { seat, .. }
        | ScriptLine::Open { seat, .. }
        | ScriptLine::View { seat, .. }
        | ScriptLine::Read { seat, .. }
        | ScriptLine::Write { seat, .. }
        | ScriptLine::Fill { seat, .. }
        | ScriptLine::Size { seat, .. }
        | ScriptLine::Flush { seat }
        | ScriptLine::Move { seat, .. }
        | ScriptLine::Draw { seat }
        | ScriptLine::Close { seat } => *seat < 8,
    }
}

fn reply_to(
    alloc: Global,
    desk: &mut Desk,
    host: &mut MemHost,
    random: &mut ListWords,
    line: &str,
) -> Result<Reply, Memory> {
    match read_line(alloc, line.as_bytes()) {
        Ok(line) if is_below(&line) => desk.step(host, random, &line),
        Ok(_) => Err(Memory),
        Err(LineFault::BadLine) => Ok(Reply::Refused { why: Why::Broken }),
        Err(LineFault::Memory) => Err(Memory),
    }
}

// Adds what a line is answered.
fn answer(
    rt: &impl Abort,
    alloc: Global,
    desk: &mut Desk,
    host: &mut MemHost,
    random: &mut ListWords,
    line: &str,
    out: &mut MemSink,
) {
    match reply_to(alloc, desk, host, random, line) {
        Ok(reply) => assert!(rt; write_reply(out, &reply).is_ok()),
        Err(Memory) => panic!(rt; "want of memory at {line}"),
    }
}

// The lines have these replies.
fn expect_script(
    rt: &impl Abort,
    alloc: Global,
    desk: &mut Desk,
    host: &mut MemHost,
    random: &mut ListWords,
    script: &str,
    want: &str,
) {
    let mut out = MemSink::new(alloc);
    for line in script.lines() {
        answer(rt, alloc, desk, host, random, line, &mut out);
    }
    assert!(rt; out.bytes() == want.as_bytes(), "{script}");
}

// So on a new host, with so many random words; the host as it is then.
fn expect_on_new(
    rt: &impl Abort,
    alloc: Global,
    words: u8,
    script: &str,
    want: &str,
) -> Result<MemHost, Fail> {
    let mut host = MemHost::new(alloc);
    let mut random = words_of(alloc, words)?;
    let mut desk = Desk::new(alloc, KEY);
    expect_script(rt, alloc, &mut desk, &mut host, &mut random, script, want);
    Ok(host)
}

#[test]
fn a_new_file_is_written_and_read(rt: HostRuntime) -> Result<(), Fail> {
    expect_on_new(
        &rt,
        rt.alloc(),
        4,
        "create 0 c.pf\n\
         write 0 0 68656c6c6f\n\
         write 0 5 21\n\
         write 0 7 00\n\
         fill 0 0 32769 00\n\
         write 0 4294967296 00\n\
         read 0 0 32769\n\
         read 0 0 10\n\
         read 0 6 1\n\
         flush 0\n\
         close 0",
        "ok create\n\
         ok write 5\n\
         ok write 1\n\
         refused past end 6\n\
         refused too long\n\
         refused too large\n\
         refused too long\n\
         ok read 6 68656c6c6f21\n\
         ok read 0\n\
         ok flush\n\
         ok close\n",
    )?;
    Ok(())
}

// A creation takes two words, and so does a flush where node 0 alone changed.
#[test]
fn three_words_are_too_few_for_a_new_file(rt: HostRuntime) -> Result<(), Fail> {
    expect_on_new(
        &rt,
        rt.alloc(),
        3,
        "create 0 c.pf\n\
         write 0 0 68656c6c6f\n\
         flush 0\n\
         read 0 0 10",
        "ok create\n\
         ok write 5\n\
         random fault\n\
         ok read 5 68656c6c6f\n",
    )?;
    Ok(())
}

// Three nodes are dirty then: the changed byte's, its table's and the root.
const A_CHANGE_WITH_TOO_FEW_WORDS: &str = "create 0 a.pf\n\
     size 0 396289\n\
     close 0\n\
     open 0 a.pf\n\
     write 0 396288 7a\n\
     flush 0";

const ITS_REPLIES: &str = "ok create\n\
     ok size 396289\n\
     ok close\n\
     ok open 396289\n\
     ok write 1\n\
     random fault\n";

const A_FLUSH_AND_A_READ: &str = "flush 0\n\
     read 0 396288 9";

const A_FLUSH_AND_A_LATER_OPENING: &str = "flush 0\n\
     close 0\n\
     open 0 a.pf\n\
     read 0 396288 9";

const ALL_ARE_ACCEPTED: &str = "ok flush\n\
     ok close\n\
     ok open 396289\n\
     ok read 1 7a\n";

// A flush that finds too few words has taken all that were left, so each later one has only those that were added.
#[test]
fn a_flush_takes_two_words_and_one_for_each_dirty_node(rt: HostRuntime) -> Result<(), Fail> {
    let alloc = rt.alloc();
    let mut host = MemHost::new(alloc);
    let mut random = words_of(alloc, 111)?;
    let mut desk = Desk::new(alloc, KEY);
    for (more, script, replies) in [
        (0, A_CHANGE_WITH_TOO_FEW_WORDS, ITS_REPLIES),
        (4, A_FLUSH_AND_A_READ, "random fault\nok read 1 7a\n"),
        (5, A_FLUSH_AND_A_LATER_OPENING, ALL_ARE_ACCEPTED),
    ] {
        add_words(&mut random, more)?;
        expect_script(
            &rt,
            alloc,
            &mut desk,
            &mut host,
            &mut random,
            script,
            replies,
        );
    }
    Ok(())
}

#[test]
fn a_shrink_leaves_no_old_bytes(rt: HostRuntime) -> Result<(), Fail> {
    let host = expect_on_new(
        &rt,
        rt.alloc(),
        8,
        "create 0 d.pf\n\
         fill 0 0 5000 ff\n\
         size 0 100\n\
         size 0 5000\n\
         read 0 98 4\n\
         read 0 4996 4\n\
         close 0",
        "ok create\n\
         ok write 5000\n\
         ok size 100\n\
         ok size 5000\n\
         ok read 4 ffff0000\n\
         ok read 4 00000000\n\
         ok close\n",
    )?;
    let Some(bytes) = host.bytes("d.pf") else {
        panic!(&rt; "no file");
    };
    assert!(&rt; bytes.len() == 12288);
    Ok(())
}

#[test]
fn a_write_that_would_make_too_many_nodes_dirty_flushes(rt: HostRuntime) -> Result<(), Fail> {
    expect_on_new(
        &rt,
        rt.alloc(),
        100,
        "create 0 e.pf\n\
         fill 0 0 32768 61\n\
         fill 0 32768 32768 61\n\
         fill 0 65536 32768 61\n\
         fill 0 98304 32768 61\n\
         fill 0 131072 32768 61\n\
         fill 0 163840 32768 61",
        "ok create\n\
         ok write 32768\n\
         ok write 32768\n\
         ok write 32768\n\
         ok write 32768\n\
         ok write 32768\n\
         ok write 32768 flushed\n",
    )?;
    Ok(())
}

const SEATS_AND_NAMES: &str = "\n\
     # a comment\n\
     flush 3\n\
     create 0 x.new\n\
     create 0 a.pf\n\
     create 0 b.pf\n\
     create 1 a.pf\n\
     open 1 a.pf\n\
     open 1 b.pf\n\
     create 1 b.pf\n\
     view 0 /a\n\
     view 2 /a\n\
     close 0\n\
     create 0 a.pf\n\
     open 0 a.pf\n\
     size 0 100000\n\
     size 0 4294967297\n\
     draw 0\n\
     draw 0\n\
     close 0\n\
     close 0";

const THEIR_REPLIES: &str = "refused seat empty\n\
     refused bad name\n\
     ok create\n\
     refused seat busy\n\
     refused name busy\n\
     refused name busy\n\
     refused not found b.pf\n\
     ok create\n\
     refused seat busy\n\
     refused no manifest\n\
     ok close\n\
     refused exists a.pf\n\
     ok open 0\n\
     ok size 100000\n\
     refused too large\n\
     ok draw 0404040404040404040404040404040405050505050505050505050505050505\n\
     ok draw 0404040404040404040404040404040405050505050505050505050505050505\n\
     random fault\n\
     refused seat empty\n";

#[test]
fn seats_and_names_are_told_apart(rt: HostRuntime) -> Result<(), Fail> {
    expect_on_new(&rt, rt.alloc(), 20, SEATS_AND_NAMES, THEIR_REPLIES)?;
    Ok(())
}

// Whether the seat was closed whole.
fn closed_whole(desk: &mut Desk, host: &mut MemHost, random: &mut ListWords, seat: u8) -> bool
    requires { seat < 8 }
{
    let reply = desk.end(host, random, seat);
    matches!(reply, Some(Reply::Closed { lost: false }))
}

// Whether the seat was empty.
fn is_empty(desk: &mut Desk, host: &mut MemHost, random: &mut ListWords, seat: u8) -> bool
    requires { seat < 8 }
{
    desk.end(host, random, seat).is_none()
}

#[test]
fn the_seats_are_closed_at_the_end(rt: HostRuntime) -> Result<(), Fail> {
    let alloc = rt.alloc();
    let mut host = MemHost::new(alloc);
    let mut random = words_of(alloc, 20)?;
    let mut desk = Desk::new(alloc, KEY);
    expect_script(
        &rt,
        alloc,
        &mut desk,
        &mut host,
        &mut random,
        "create 2 a.pf\n\
         write 2 0 6869",
        "ok create\n\
         ok write 2\n",
    );
    assert!(&rt; is_empty(&mut desk, &mut host, &mut random, 0));
    assert!(&rt; closed_whole(&mut desk, &mut host, &mut random, 2));
    assert!(&rt; is_empty(&mut desk, &mut host, &mut random, 2));
    expect_script(
        &rt,
        alloc,
        &mut desk,
        &mut host,
        &mut random,
        "open 2 a.pf\n\
         read 2 0 9",
        "ok open 2\n\
         ok read 2 6869\n",
    );
    Ok(())
}

#[test]
fn a_move_takes_the_file_to_another_name(rt: HostRuntime) -> Result<(), Fail> {
    let host = expect_on_new(
        &rt,
        rt.alloc(),
        20,
        "move 0 g.pf\n\
         create 0 f.pf\n\
         write 0 0 6869\n\
         create 1 b.pf\n\
         move 0 b.pf\n\
         close 1\n\
         move 0 b.pf\n\
         move 0 f.pf\n\
         move 0 x.new\n\
         move 0 g.pf\n\
         read 0 0 9\n\
         open 1 f.pf\n\
         close 0\n\
         open 1 g.pf",
        "refused seat empty\n\
         ok create\n\
         ok write 2\n\
         ok create\n\
         refused name busy\n\
         ok close\n\
         refused target exists\n\
         refused target exists\n\
         refused bad name\n\
         ok move\n\
         ok read 2 6869\n\
         refused not found f.pf\n\
         ok close\n\
         ok open 2\n",
    )?;
    assert!(&rt; host.bytes("f.pf").is_none());
    Ok(())
}

#[test]
fn a_fault_breaks_its_own_seat(rt: HostRuntime) -> Result<(), Fail> {
    let alloc = rt.alloc();
    let mut host = MemHost::new(alloc);
    let mut random = words_of(alloc, 20)?;
    let mut desk = Desk::new(alloc, KEY);
    expect_script(
        &rt,
        alloc,
        &mut desk,
        &mut host,
        &mut random,
        "create 0 a.pf\n\
         create 1 b.pf\n\
         write 0 0 61",
        "ok create\n\
         ok create\n\
         ok write 1\n",
    );
    host.fail_at(15)?;
    expect_script(
        &rt,
        alloc,
        &mut desk,
        &mut host,
        &mut random,
        "flush 0\n\
         read 0 0 1\n\
         write 1 0 62\n\
         close 0\n\
         open 0 a.pf\n\
         close 1",
        "host fault\n\
         refused broken\n\
         ok write 1\n\
         ok close lost\n\
         ok open 0\n\
         ok close\n",
    );
    Ok(())
}
