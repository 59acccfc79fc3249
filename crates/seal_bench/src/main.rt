//! Seals or opens many nodes of 4096 bytes, each under a fresh key, and prints a checksum.
//!
//! Arguments: `seal` or `open`, and the number of nodes. `bench/run` times it.
#![tactic(auto)]

mod nodes;

use nodes::{open_nodes, seal_nodes};
use std::{env, io};

const USAGE: &str = "usage: seal_bench seal|open NODES";

fn main(rt: HostRuntime) -> io::Result<()> {
    let mut words = env::args(&rt)?.skip(1);
    let (Some(mode), Some(count)) = (words.next(), words.next()) else {
        return println!(rt; "{USAGE}");
    };
    let Ok(count) = count.parse::<usize>() else {
        return println!(rt; "{USAGE}");
    };
    let checksum = match mode.as_str() {
        "seal" => seal_nodes(count),
        "open" => open_nodes(count),
        _ => return println!(rt; "{USAGE}"),
    };
    println!(rt; "{checksum}")
}
