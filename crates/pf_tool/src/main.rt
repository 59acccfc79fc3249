//! The program `pf_tool`: tools for protected and trusted files of enclaves.
#![tactic(auto)]

mod decrypt;
mod defines;
mod encrypt;
mod fault;
mod input_file;
mod key;
mod lines;
mod manifest;
mod manifest_words;
mod measuring;
mod pieces;
mod plain_file;
mod rendering;
mod run;
mod script;
mod script_lines;
mod session_faults;
mod sum_files;
mod sums;
mod text_output;
mod text_refusals;
mod why;
mod words;

use pf_io::{DeviceWords, DiskHost, StdSink, StdSource};
use run::run;
use std::env;
use std::io::{self, ErrorKind};
use std::process::ExitCode;

// The words after the program's name. Where one is not UTF-8 there are none, which is no command.
fn words_of(rt: &HostRuntime) -> io::Result<Vec<String>> {
    match env::args(rt) {
        Ok(words) => Ok(words.skip(1).collect(rt.alloc())?),
        Err(error) if error.kind() == ErrorKind::InvalidData => Ok(Vec::new(rt.alloc())),
        Err(error) => Err(error),
    }
}

fn main(rt: HostRuntime) -> ExitCode {
    let alloc = rt.alloc();
    let Ok(words) = words_of(&rt) else {
        return ExitCode::from(5);
    };
    let mut out = StdSink::new(rt.stdout());
    let mut log = StdSink::new(rt.stderr());
    let mut input = StdSource::new(rt.stdin());
    let Ok(system) = rt.clone() else {
        return ExitCode::from(5);
    };
    let mut random = DeviceWords::new(system);
    let mut host = DiskHost::new(rt);
    let status = run(
        alloc,
        &words,
        &mut host,
        &mut input,
        &mut out,
        &mut log,
        &mut random,
    );
    ExitCode::from(status)
}
