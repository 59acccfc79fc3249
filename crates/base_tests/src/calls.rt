//! Calls of any host, which the tests make in turn.
use pf_io::{Host, HostFault};
use std::process::Abort;

// A call that changes a host.
#[derive(Clone, Copy)]
pub(crate) enum Call {
    Write(&'static str, u64, &'static [u8]),
    Cut(&'static str, u64),
    Sync(&'static str),
    Make(&'static str),
    Swap(&'static str, &'static str),
    Remove(&'static str),
}

fn make_call<H: Host>(host: &mut H, call: &Call) -> Result<(), HostFault> {
    match call {
        Call::Write(name, at, bytes) => host.write_at(name, *at, bytes),
        Call::Cut(name, len) => host.cut(name, *len),
        Call::Sync(name) => host.sync(name),
        Call::Make(name) => host.make(name),
        Call::Swap(from, to) => host.swap_name(from, to),
        Call::Remove(name) => host.remove(name),
    }
}

// Changes `a`, and then puts `b` in its place.
pub(crate) const SCRIPT: [Call; 10] = [
    Call::Write("a", 1, b"XY"),
    Call::Write("a", 5, b"Z"),
    Call::Sync("a"),
    Call::Cut("a", 3),
    Call::Write("a", 4, b"Q"),
    Call::Make("b"),
    Call::Write("b", 0, b"new"),
    Call::Swap("b", "a"),
    Call::Sync("a"),
    Call::Remove("a"),
];

pub(crate) fn make_each<H: Host>(host: &mut H, calls: &[Call]) {
    for call in calls {
        let _ = make_call(host, call);
    }
}

pub(crate) fn expect_each<H: Host>(
    rt: &impl Abort,
    host: &mut H,
    calls: &[Call],
    want: Result<(), HostFault>,
) {
    for call in calls {
        assert!(rt; make_call(host, call) == want);
    }
}

// The length of a file, and how many bytes a read gave, which stand at the front.
pub(crate) type Opened = (Option<u64>, usize, [u8; 4]);

// What a host has of a name.
pub(crate) fn opened<H: Host>(host: &mut H, name: &str, at: u64) -> Result<Opened, HostFault> {
    let len = host.len(name)?;
    let mut read = [9; 4];
    let n = host.read_at(name, at, &mut read)?;
    Ok((len, n, read))
}
