// Calls of a host in memory, and its crashes after each call of a script, tried with each tear.
use crate::calls::{Call, SCRIPT, expect_each, make_each};
use pf_io::{Host, HostFault, MemHost, Tear, write_by_side_file};
use std::alloc::Global;
use std::process::Abort;
use std::test::Fail;

const EACH_TEAR: [Tear; 3] = [Tear::Kept, Tear::Lost, Tear::Fill(b'-')];

fn put_files(host: &mut MemHost) -> Result<(), Fail> {
    host.put("a", b"abcd")?;
    host.put("c", b"other")?;
    Ok(())
}

// The first calls of the script change a host, and the others do not.
fn make_calls(host: &mut MemHost, calls: u64) {
    host.stop_at(calls);
    make_each(host, &SCRIPT);
}

// The host after the first calls of the script and a crash.
fn crashed(alloc: Global, calls: u64, tear: Tear) -> Result<MemHost, Fail> {
    let mut host = MemHost::new(alloc);
    put_files(&mut host)?;
    make_calls(&mut host, calls);
    Ok(host.after_crash(tear)?)
}

type Outcome = (Option<&'static [u8]>, Option<&'static [u8]>);

// What `a` and `b` have after so many calls of the script: kept, lost and filled.
const OUTCOMES: [[Outcome; 3]; 11] = [
    [
        (Some(b"abcd"), None),
        (Some(b"abcd"), None),
        (Some(b"abcd"), None),
    ],
    [
        (Some(b"aXYd"), None),
        (Some(b"abcd"), None),
        (Some(b"a--d"), None),
    ],
    [
        (Some(b"aXYd\0Z"), None),
        (Some(b"abcd"), None),
        (Some(b"a--d--"), None),
    ],
    [
        (Some(b"aXYd\0Z"), None),
        (Some(b"aXYd\0Z"), None),
        (Some(b"aXYd\0Z"), None),
    ],
    [
        (Some(b"aXY"), None),
        (Some(b"aXYd\0Z"), None),
        (Some(b"aXY"), None),
    ],
    [
        (Some(b"aXY\0Q"), None),
        (Some(b"aXYd\0Z"), None),
        (Some(b"aXY--"), None),
    ],
    [
        (Some(b"aXY\0Q"), Some(b"")),
        (Some(b"aXYd\0Z"), Some(b"")),
        (Some(b"aXY--"), Some(b"")),
    ],
    [
        (Some(b"aXY\0Q"), Some(b"new")),
        (Some(b"aXYd\0Z"), Some(b"")),
        (Some(b"aXY--"), Some(b"---")),
    ],
    [
        (Some(b"new"), None),
        (Some(b""), None),
        (Some(b"---"), None),
    ],
    [
        (Some(b"new"), None),
        (Some(b"new"), None),
        (Some(b"new"), None),
    ],
    [(None, None), (None, None), (None, None)],
];

#[test]
fn a_crash_leaves_what_the_tear_says_after_each_call(rt: HostRuntime) -> Result<(), Fail> {
    for (calls, row) in OUTCOMES.iter().enumerate() {
        for (tear, (a, b)) in EACH_TEAR.iter().zip(row) {
            let host = crashed(rt.alloc(), calls as u64, *tear)?;
            assert!(rt; host.bytes("a") == *a, "{calls} calls, {tear:?}");
            assert!(rt; host.bytes("b") == *b, "{calls} calls, {tear:?}");
            assert!(rt; host.bytes("c") == Some(b"other".as_slice()));
            assert!(rt; host.starved() == 0);
        }
    }
    Ok(())
}

#[test]
fn a_host_in_memory_stops_where_it_is_told_to(rt: HostRuntime) -> Result<(), Fail> {
    let mut host = MemHost::new(rt.alloc());
    host.put("a", b"abc")?;
    host.stop_at(1);
    host.stop_at(2);
    expect_each(&rt, &mut host, &[Call::Write("a", 0, b"x")], Ok(()));
    expect_each(&rt, &mut host, &SCRIPT, Err(HostFault));
    assert!(rt; host.bytes("a") == Some(b"xbc".as_slice()));
    assert!(rt; host.starved() == 0);
    let mut host = host.after_crash(Tear::Kept)?;
    assert!(rt; host.len("a") == Ok(Some(3)));
    Ok(())
}

// Calls that find no file under their name, and a swap of a name with itself.
const IDLE: [Call; 6] = [
    Call::Write("b", 0, b"x"),
    Call::Cut("b", 0),
    Call::Sync("b"),
    Call::Swap("b", "a"),
    Call::Swap("a", "a"),
    Call::Remove("b"),
];

#[test]
fn calls_on_absent_names_change_nothing(rt: HostRuntime) -> Result<(), Fail> {
    let mut host = MemHost::new(rt.alloc());
    host.put("a", b"abc")?;
    expect_each(&rt, &mut host, &IDLE, Ok(()));
    assert!(rt; host.bytes("a") == Some(b"abc".as_slice()));
    assert!(rt; host.bytes("b") == None);
    Ok(())
}

const OLD: &[u8] = b"old";

const LONG: [u8; 40_000] = [b'x'; 40_000];

// What is written, and how many calls write it.
const WRITINGS: [(&[u8], u64); 3] = [(b"", 3), (b"newer", 4), (&LONG, 5)];

// Writes `a` anew, where only the first calls change the host, and says whether it succeeds.
fn is_written(host: &mut MemHost, bytes: &[u8], calls: u64) -> bool {
    host.stop_at(calls);
    write_by_side_file(host, "a", "a.new", bytes).is_ok()
}

// Whether a crash leaves these bytes of `a`.
fn leaves(host: MemHost, tear: Tear, bytes: &[u8]) -> Result<bool, Fail> {
    let left = host.after_crash(tear)?;
    Ok(left.bytes("a") == Some(bytes))
}

fn expect_old_or_new(
    rt: &impl Abort,
    alloc: Global,
    bytes: &[u8],
    calls: u64,
    written: bool,
) -> Result<(), Fail> {
    for tear in EACH_TEAR {
        let mut host = MemHost::new(alloc);
        host.put("a", OLD)?;
        assert!(rt; is_written(&mut host, bytes, calls) == written);
        let want = if written { bytes } else { OLD };
        let same = leaves(host, tear, want)?;
        assert!(rt; same, "{calls} calls");
    }
    Ok(())
}

#[test]
fn a_crash_leaves_the_old_file_or_the_new_one(rt: HostRuntime) -> Result<(), Fail> {
    for (bytes, all) in &WRITINGS {
        for calls in 0..6 {
            expect_old_or_new(&rt, rt.alloc(), bytes, calls, calls >= *all)?;
        }
    }
    Ok(())
}
