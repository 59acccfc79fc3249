//! What the tests of sessions share.
use pf_io::{ListWords, MemHost, Tear};
use pf_session::{Session, Written};
use std::alloc::Global;
use std::process::Abort;
use std::test::Fail;

pub(crate) const KEY: [u8; 16] = [7; 16];

pub(crate) const EACH_TEAR: [Tear; 3] = [Tear::Kept, Tear::Lost, Tear::Fill(b'-')];

const AT_ONCE: Written = Written {
    flushed_before: false,
};

pub(crate) fn add_words(random: &mut ListWords, count: u8) -> Result<(), Fail> {
    for word in 0..count {
        random.push([word; 16])?;
    }
    Ok(())
}

// So many random words, each another one.
pub(crate) fn words_of(alloc: Global, count: u8) -> Result<ListWords, Fail> {
    let mut random = ListWords::new(alloc);
    add_words(&mut random, count)?;
    Ok(random)
}

pub(crate) fn new_file(
    rt: &impl Abort,
    alloc: Global,
    host: &mut MemHost,
    random: &mut ListWords,
) -> Session {
    match Session::create(alloc, host, random, &KEY, "a.pf", "a.pf") {
        Ok(session) => session,
        Err(_fault) => panic!(rt; "not created"),
    }
}

// Writes with no flush before.
pub(crate) fn write(
    rt: &impl Abort,
    session: &mut Session,
    host: &mut MemHost,
    random: &mut ListWords,
    at: u64,
    from: &[u8],
) {
    assert!(rt; !session.broken());
    assert!(rt; session.write(host, random, at, from) == Ok(AT_ONCE));
}

// Writes so many bytes, all the same, from the start on, with no flush before.
pub(crate) fn fill(
    rt: &impl Abort,
    alloc: Global,
    session: &mut Session,
    host: &mut MemHost,
    random: &mut ListWords,
    byte: u8,
    count: usize,
) -> Result<(), Fail> {
    let bytes = vec![in alloc; byte; count]?;
    write(rt, session, host, random, 0, &bytes);
    Ok(())
}

pub(crate) fn flush(
    rt: &impl Abort,
    session: &mut Session,
    host: &mut MemHost,
    random: &mut ListWords,
) {
    assert!(rt; !session.broken());
    assert!(rt; session.flush(host, random) == Ok(()));
}
