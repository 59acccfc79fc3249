//! Moves of protected files, and what a crash leaves of them.
use crate::fixtures::{EACH_TEAR, KEY, fill, flush, new_file, words_of, write};
use pf_io::{ListWords, MemHost, Tear};
use pf_session::{MoveFault, OpenFault, Session};
use std::alloc::Global;
use std::process::Abort;
use std::test::Fail;

// A session on `a.pf` with a sealed content of 5000 bytes 5, which takes six words.
fn sealed_file(
    rt: &impl Abort,
    alloc: Global,
    host: &mut MemHost,
    random: &mut ListWords,
) -> Result<Session, Fail> {
    let mut session = new_file(rt, alloc, host, random);
    fill(rt, alloc, &mut session, host, random, 5, 5000)?;
    flush(rt, &mut session, host, random);
    Ok(session)
}

// The last byte before the data node becomes 6, which makes no node dirty.
fn change(rt: &impl Abort, session: &mut Session, host: &mut MemHost, random: &mut ListWords) {
    write(rt, session, host, random, 3071, &[6]);
}

fn move_to(
    rt: &impl Abort,
    alloc: Global,
    session: &mut Session,
    host: &mut MemHost,
    random: &mut ListWords,
    new: &str,
) -> Result<(), MoveFault> {
    assert!(rt; !session.broken() && !session.beside());
    session.move_to(alloc, host, random, new)
}

// It opens under its own name as path; `None` where it is absent, else the byte of its content that a change makes 6, and the
// one behind it.
fn bytes_at(rt: &impl Abort, alloc: Global, host: &mut MemHost, name: &str) -> Option<[u8; 2]> {
    match Session::open(alloc, host, &KEY, name, Some(name)) {
        Ok(session) => Some(bytes_of(rt, session, host)),
        Err(fault) => {
            assert!(rt; matches!(fault, OpenFault::NotFound));
            None
        }
    }
}

fn bytes_of(rt: &impl Abort, session: Session, host: &mut MemHost) -> [u8; 2] {
    let mut session = session;
    assert!(rt; !session.broken());
    assert!(rt; session.size() == 5000);
    let mut to = [0; 2];
    assert!(rt; session.read(host, 3071, &mut to) == Ok(2));
    to
}

// A move makes so many calls where the session was flushed before it, and more where it was not.
const CALLS: u64 = 11;

const CALLS_WITH_FLUSH: u64 = 19;

// The host after a crash that keeps all, with one more file.
fn settled(host: MemHost) -> Result<MemHost, Fail> {
    let mut host = host.after_crash(Tear::Kept)?;
    host.put("c.pf", b"other")?;
    Ok(host)
}

fn expect_end(rt: &impl Abort, moved: bool, broken: bool, calls: u64, all: u64) {
    assert!(rt; moved == (calls >= all), "{calls} calls");
    assert!(rt; broken == (1 <= calls && calls < all), "{calls} calls");
}

// A session on a file that was sealed, with a change behind it or none.
fn maybe_changed(
    rt: &impl Abort,
    alloc: Global,
    host: &mut MemHost,
    random: &mut ListWords,
    changed: bool,
) -> Result<Session, Fail> {
    let mut session = sealed_file(rt, alloc, host, random)?;
    if changed {
        change(rt, &mut session, host, random);
    }
    Ok(session)
}

fn try_move(
    rt: &impl Abort,
    alloc: Global,
    session: &mut Session,
    host: &mut MemHost,
    random: &mut ListWords,
    calls: u64,
    all: u64,
) {
    host.stop_at(calls);
    let moved = move_to(rt, alloc, session, host, random, "b.pf");
    expect_end(rt, moved.is_ok(), session.broken(), calls, all);
}

// A move whose calls fail from one on, and what a crash leaves then.
fn stop_move(
    rt: &impl Abort,
    alloc: Global,
    calls: u64,
    tear: Tear,
    changed: bool,
) -> Result<(), Fail> {
    let mut host = MemHost::new(alloc);
    let mut random = words_of(alloc, 10)?;
    let mut session = maybe_changed(rt, alloc, &mut host, &mut random, changed)?;
    let mut host = settled(host)?;
    let all = if changed { CALLS_WITH_FLUSH } else { CALLS };
    try_move(rt, alloc, &mut session, &mut host, &mut random, calls, all);
    expect_left(rt, alloc, host, tear, calls, all, changed)
}

fn expect_left(
    rt: &impl Abort,
    alloc: Global,
    host: MemHost,
    tear: Tear,
    calls: u64,
    all: u64,
    changed: bool,
) -> Result<(), Fail> {
    let mut left = host.after_crash(tear)?;
    assert!(rt; left.bytes("c.pf") == Some(&b"other"[..]));
    expect_moved(rt, alloc, &mut left, calls, all, changed);
    Ok(())
}

fn bytes_if(there: bool, first: u8) -> Option<[u8; 2]> {
    if there { Some([first, 5]) } else { None }
}

// The last call takes the old name away, and the one before it gives the new name.
fn expect_moved(
    rt: &impl Abort,
    alloc: Global,
    left: &mut MemHost,
    calls: u64,
    all: u64,
    changed: bool,
) {
    let flushed = changed && calls.saturating_add(CALLS) > all;
    let first = if flushed { 6 } else { 5 };
    let old = bytes_if(calls < all, first);
    let new = bytes_if(calls.saturating_add(1) >= all, first);
    assert!(rt; bytes_at(rt, alloc, left, "a.pf") == old, "{calls} calls");
    assert!(rt; bytes_at(rt, alloc, left, "b.pf") == new, "{calls} calls");
}

#[test]
fn a_crash_leaves_the_content_under_one_name_or_both(rt: HostRuntime) -> Result<(), Fail> {
    for tear in EACH_TEAR {
        for calls in 0..CALLS + 1 {
            stop_move(&rt, rt.alloc(), calls, tear, false)?;
        }
        for calls in 0..CALLS_WITH_FLUSH + 1 {
            stop_move(&rt, rt.alloc(), calls, tear, true)?;
        }
    }
    Ok(())
}
