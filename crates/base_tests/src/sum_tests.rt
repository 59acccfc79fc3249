//! Sums over a host whose answers do not fit each other.
use crate::manifests::ABC;
use file_sums::{SumFault, sum};
use pf_fakes::{Answer, ScriptHost};
use pf_io::Bytes;
use std::alloc::Global;
use std::test::Fail;

// A host that answers a length, and then a slice.
fn script(alloc: Global, len: Option<u64>, slice: &[u8]) -> Result<ScriptHost, Fail> {
    let mut host = ScriptHost::new(alloc);
    host.answer(Answer::Len(len))?;
    host.answer(Answer::Given(Bytes::copy(alloc, slice)?))?;
    Ok(host)
}

const ZEROS_AND_ABC: [u8; 32] = [
    0x0b, 0xfc, 0x7c, 0x7f, 0xd0, 0x76, 0x27, 0xd2, 0xe9, 0xab, 0x25, 0x82, 0xcd, 0xf2, 0xf0, 0x78,
    0xe7, 0x7a, 0x02, 0xe7, 0x22, 0xa2, 0xc6, 0xec, 0xbd, 0x00, 0x95, 0x0e, 0x2a, 0x9f, 0xbc, 0x42,
];

#[test]
fn the_bytes_given_are_summed_whatever_the_length(rt: HostRuntime) -> Result<(), Fail> {
    let mut long = script(rt.alloc(), Some(2), &[0; 16384])?;
    long.answer(Answer::Given(Bytes::copy(rt.alloc(), b"abc")?))?;
    assert!(rt; sum(&mut long, "a") == Ok(ZEROS_AND_ABC));
    let mut short = script(rt.alloc(), Some(50_000), b"abc")?;
    assert!(rt; sum(&mut short, "a") == Ok(ABC));
    Ok(())
}

#[test]
fn answers_that_end_it_are_told_apart(rt: HostRuntime) -> Result<(), Fail> {
    let mut absent = script(rt.alloc(), None, b"abc")?;
    assert!(rt; sum(&mut absent, "a") == Err(SumFault::NotFound));
    let mut failing = script(rt.alloc(), Some(3), &[0; 16384])?;
    assert!(rt; sum(&mut failing, "a") == Err(SumFault::Host));
    Ok(())
}
