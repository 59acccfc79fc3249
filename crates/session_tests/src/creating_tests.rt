//! Creations of protected files, and what a crash leaves of them.
use crate::fixtures::{EACH_TEAR, KEY, words_of};
use pf_io::{Host, ListWords, MemHost, Tear};
use pf_session::{BesideFault, CreateFault, OpenFault, Session};
use std::alloc::Global;
use std::process::Abort;
use std::test::Fail;

// Why `a.pf` was not created, if it wasn't.
fn created(alloc: Global, host: &mut MemHost, count: u8) -> Result<Option<CreateFault>, Fail> {
    let mut random = words_of(alloc, count)?;
    match Session::create(alloc, host, &mut random, &KEY, "a.pf", "a.pf") {
        Ok(_session) => Ok(None),
        Err(fault) => Ok(Some(fault)),
    }
}

// Why it was not created beside its name, if it wasn't.
fn begun(alloc: Global, host: &mut MemHost, count: u8) -> Result<Option<BesideFault>, Fail> {
    let mut random = words_of(alloc, count)?;
    match Session::create_beside(alloc, host, &mut random, &KEY, "a.pf", "a.pf") {
        Ok(_session) => Ok(None),
        Err(fault) => Ok(Some(fault)),
    }
}

fn expect_new(rt: &impl Abort, session: &Session) {
    assert!(rt; session.size() == 0);
    assert!(rt; session.path().as_str() == "a.pf");
    assert!(rt; session.nonce().starts_with(&[0; 16]));
    assert!(rt; session.nonce().ends_with(&[1; 16]));
    assert!(rt; session.dirty() == 0);
    assert!(rt; !session.changed() && !session.broken());
}

// The name opens as an empty version.
fn expect_empty(rt: &impl Abort, alloc: Global, host: &mut MemHost) {
    match Session::open(alloc, host, &KEY, "a.pf", Some("a.pf")) {
        Ok(session) => expect_new(rt, &session),
        Err(_fault) => panic!(rt; "not opened"),
    }
}

fn is_absent(alloc: Global, host: &mut MemHost) -> bool {
    match Session::open(alloc, host, &KEY, "a.pf", None) {
        Ok(_session) => false,
        Err(fault) => matches!(fault, OpenFault::NotFound),
    }
}

// A creation makes six calls. A crash after any of them leaves the name absent, and after the last one an empty version.
fn stop_creation(rt: &impl Abort, alloc: Global, calls: u64, tear: Tear) -> Result<(), Fail> {
    let mut host = MemHost::new(alloc);
    host.put("b.pf", b"other")?;
    host.stop_at(calls);
    let fault = created(alloc, &mut host, 2)?;
    assert!(rt; fault.is_none() == (calls == 6), "{calls} calls");
    let mut left = host.after_crash(tear)?;
    assert!(rt; left.bytes("b.pf") == Some(&b"other"[..]));
    if calls == 6 {
        expect_empty(rt, alloc, &mut left);
    } else {
        assert!(rt; is_absent(alloc, &mut left), "{calls} calls");
    }
    Ok(())
}

#[test]
fn a_crash_leaves_a_created_name_absent_or_whole(rt: HostRuntime) -> Result<(), Fail> {
    for calls in 0..7 {
        for tear in EACH_TEAR {
            stop_creation(&rt, rt.alloc(), calls, tear)?;
        }
    }
    Ok(())
}

// A creation beside the name makes three calls, none of which changes the name. After the last one a crash leaves the side
// file whole.
fn stop_beginning(rt: &impl Abort, alloc: Global, calls: u64, tear: Tear) -> Result<(), Fail> {
    let mut host = MemHost::new(alloc);
    host.put("a.pf", b"before")?;
    host.stop_at(calls);
    let fault = begun(alloc, &mut host, 2)?;
    assert!(rt; fault.is_none() == (calls == 3), "{calls} calls");
    let mut left = host.after_crash(tear)?;
    assert!(rt; left.bytes("a.pf") == Some(&b"before"[..]));
    if calls == 3 {
        take_name(rt, &mut left);
        expect_empty(rt, alloc, &mut left);
    }
    Ok(())
}

fn take_name(rt: &impl Abort, host: &mut MemHost) {
    assert!(rt; host.swap_name("a.pf.new", "a.pf") == Ok(()));
}

#[test]
fn a_creation_beside_a_name_leaves_the_name(rt: HostRuntime) -> Result<(), Fail> {
    for calls in 0..4 {
        for tear in EACH_TEAR {
            stop_beginning(&rt, rt.alloc(), calls, tear)?;
        }
    }
    Ok(())
}
