//! Sealings of a content, and what a crash leaves of them.
use crate::fixtures::{EACH_TEAR, KEY, fill, new_file, words_of, write};
use pf_io::{ListWords, MemHost, Tear};
use pf_session::Session;
use std::alloc::Global;
use std::process::Abort;
use std::test::Fail;

// A host whose file has 8000 bytes 1 in three nodes beside node 0: the root and two data nodes. A closing seals them.
fn sealed_host(rt: &impl Abort, alloc: Global) -> Result<MemHost, Fail> {
    let mut host = MemHost::new(alloc);
    let mut random = words_of(alloc, 7)?;
    seal(rt, alloc, &mut host, &mut random)?;
    Ok(host.after_crash(Tear::Kept)?)
}

fn seal(
    rt: &impl Abort,
    alloc: Global,
    host: &mut MemHost,
    random: &mut ListWords,
) -> Result<(), Fail> {
    let mut session = new_file(rt, alloc, host, random);
    fill(rt, alloc, &mut session, host, random, 1, 8000)?;
    close(rt, session, host, random);
    Ok(())
}

fn close(rt: &impl Abort, session: Session, host: &mut MemHost, random: &mut ListWords) {
    assert!(rt; session.close(host, random) == Ok(()));
}

fn reopened(rt: &impl Abort, alloc: Global, host: &mut MemHost) -> Session {
    match Session::open(alloc, host, &KEY, "a.pf", Some("a.pf")) {
        Ok(session) => session,
        Err(_fault) => panic!(rt; "not opened"),
    }
}

// Opens the file and puts a byte 2 into its first data node, by four calls.
fn changed(rt: &impl Abort, alloc: Global, host: &mut MemHost, random: &mut ListWords) -> Session {
    let mut session = reopened(rt, alloc, host);
    write(rt, &mut session, host, random, 3072, &[2]);
    session
}

fn expect_byte(rt: &impl Abort, alloc: Global, host: &mut MemHost, byte: u8) {
    let mut session = reopened(rt, alloc, host);
    assert!(rt; !session.broken());
    let mut to = [0; 2];
    assert!(rt; session.read(host, 3072, &mut to) == Ok(2));
    assert!(rt; to == [byte, 1]);
    assert!(rt; session.holds(2) && !session.holds(3));
}

// Behind the four calls of the change the flush makes eight.
fn try_flush(
    rt: &impl Abort,
    alloc: Global,
    host: &mut MemHost,
    random: &mut ListWords,
    calls: u64,
) {
    let mut session = changed(rt, alloc, host, random);
    host.stop_at(calls);
    assert!(rt; !session.broken());
    let flushed = session.flush(host, random);
    assert!(rt; flushed.is_ok() == (calls == 12), "{calls} calls");
    assert!(rt; session.broken() == (calls < 12), "{calls} calls");
}

// A crash after fewer calls leaves the last version, and after all of them the next one.
fn stop_flush(rt: &impl Abort, alloc: Global, calls: u64, tear: Tear) -> Result<(), Fail> {
    let mut host = sealed_host(rt, alloc)?;
    let mut random = words_of(alloc, 4)?;
    try_flush(rt, alloc, &mut host, &mut random, calls);
    expect_left(rt, alloc, host, tear, if calls == 12 { 2 } else { 1 })
}

fn expect_left(
    rt: &impl Abort,
    alloc: Global,
    host: MemHost,
    tear: Tear,
    byte: u8,
) -> Result<(), Fail> {
    let mut left = host.after_crash(tear)?;
    expect_byte(rt, alloc, &mut left, byte);
    Ok(())
}

#[test]
fn a_crash_leaves_the_last_version_or_the_next_one(rt: HostRuntime) -> Result<(), Fail> {
    for calls in 4..13 {
        for tear in EACH_TEAR {
            stop_flush(&rt, rt.alloc(), calls, tear)?;
        }
    }
    Ok(())
}

// A session on an empty content that stands beside its name.
fn begun(rt: &impl Abort, alloc: Global, host: &mut MemHost, random: &mut ListWords) -> Session {
    match Session::create_beside(alloc, host, random, &KEY, "a.pf", "a.pf") {
        Ok(session) => session,
        Err(_fault) => panic!(rt; "not begun"),
    }
}

fn publish(rt: &impl Abort, session: Session, host: &mut MemHost, random: &mut ListWords) {
    assert!(rt; !session.broken() && session.beside());
    assert!(rt; session.publish(host, random) == Ok(()));
}

fn publish_on(
    rt: &impl Abort,
    alloc: Global,
    host: &mut MemHost,
    random: &mut ListWords,
) -> Result<(), Fail> {
    let mut session = begun(rt, alloc, host, random);
    fill(rt, alloc, &mut session, host, random, 1, 8000)?;
    assert!(rt; host.bytes("a.pf") == None);
    publish(rt, session, host, random);
    Ok(())
}

#[test]
fn what_is_published_takes_the_name(rt: HostRuntime) -> Result<(), Fail> {
    let alloc = rt.alloc();
    let mut host = MemHost::new(alloc);
    let mut random = words_of(alloc, 7)?;
    publish_on(&rt, alloc, &mut host, &mut random)?;
    expect_byte(&rt, alloc, &mut host, 1);
    Ok(())
}
