//! Sums a file by SHA-256 alone, or opens it under its sum as a trusted file and reads it whole.
//!
//! Arguments: `hash NAME`, which prints the sum, or `read NAME SUM`, which prints the bytes added up. `bench/chunks`
//! times both.
#![tactic(auto)]

mod fault;
mod files;

use files::{hash_file, read_file};
use pf_io::DiskHost;
use std::env;
use std::io::{self, ErrorKind};

const USAGE: &str = "usage: chunk_bench hash NAME | read NAME SUM";

fn main(rt: HostRuntime) -> io::Result<()> {
    let mut words = env::args(&rt)?.skip(1);
    let (Some(mode), Some(name), sum) = (words.next(), words.next(), words.next()) else {
        return println!(rt; "{USAGE}");
    };
    match (mode.as_str(), sum) {
        ("hash", None) => print_hash(&rt, name.as_str()),
        ("read", Some(sum)) => print_total(&rt, name.as_str(), sum.as_str()),
        _ => println!(rt; "{USAGE}"),
    }
}

fn print_hash(rt: &HostRuntime, name: &str) -> io::Result<()> {
    let mut host = DiskHost::new(rt.clone()?);
    let Ok(Some(sum)) = hash_file(&mut host, name) else {
        return Err(ErrorKind::Other.into());
    };
    println!(rt; "{}", hex::encode(rt.alloc(), &sum[..])?)
}

fn print_total(rt: &HostRuntime, name: &str, digits: &str) -> io::Result<()> {
    let mut sum = [0; 32];
    if hex::decode_to_slice(digits, &mut sum).is_err() {
        return Err(ErrorKind::InvalidInput.into());
    }
    let mut host = DiskHost::new(rt.clone()?);
    let Ok(total) = read_file(rt.alloc(), &mut host, name, &sum) else {
        return Err(ErrorKind::Other.into());
    };
    println!(rt; "{total}")
}
