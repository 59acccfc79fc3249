//! Makes calls of real files as the lines of standard input name them, and prints the answer to each as a line.
//!
//! There are four hosts, 0 to 3, each with its own locks and open files. `HOST drop` ends one and begins it anew. Any
//! other line is the number of a host and a call: `len NAME`, `read NAME AT COUNT`, `write NAME AT TEXT`, `cut NAME LEN`,
//! `sync NAME`, `make NAME`, `swap FROM TO` or `remove NAME`, with one blank between words. An answer is printed as
//! `{:?}` prints it, and behind that of a `read` stand the digits of its buffer, which has bytes 9 before. Where the line is
//! none of these the answer is `no call`. `tests/test_calls.py` writes such lines.
#![tactic(auto)]

mod calls;

use calls::{NO_CALL, answer};
use pf_io::{DiskHost, read_number};
use std::io;

const HOSTS: usize = 4;

type RealHost = DiskHost<HostRuntime>;

// The host that a word names.
fn host_of<'a>(hosts: &'a mut [RealHost], word: &str) -> Option<&'a mut RealHost> {
    hosts.get_mut(read_number(word.as_bytes())? as usize)
}

// Does what a line says, and answers the line that is printed.
fn answer_line(rt: &HostRuntime, hosts: &mut [RealHost], line: &str) -> io::Result<String> {
    let words: Vec<&str> = line.split(' ').collect(rt.alloc())?;
    let [number, call @ ..] = words.as_slice() else {
        return Ok(String::from_str(rt.alloc(), NO_CALL)?);
    };
    let Some(host) = host_of(hosts, number) else {
        return Ok(String::from_str(rt.alloc(), NO_CALL)?);
    };
    if call == ["drop"].as_slice() {
        *host = DiskHost::new(rt.clone()?);
        return Ok(String::from_str(rt.alloc(), "Ok(())")?);
    }
    Ok(answer(rt.alloc(), host, call)?)
}

fn main(rt: HostRuntime) -> io::Result<()> {
    let mut hosts: Vec<RealHost> = Vec::new(rt.alloc());
    for _ in 0..HOSTS {
        hosts.push(DiskHost::new(rt.clone()?))?;
    }
    for line in rt.lines(rt.alloc()) {
        let said = answer_line(&rt, &mut hosts, line?.as_str())?;
        println!(rt; "{said}")?;
    }
    Ok(())
}
