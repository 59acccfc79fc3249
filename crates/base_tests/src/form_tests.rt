use crate::calls::{Opened, SCRIPT, expect_each, opened};
use pf_fakes::{Answer, ScriptHost};
use pf_io::{
    Bytes, HostFault, MemHost, MemSink, MemSource, Sink, Source, StreamFault, Text, is_name,
    is_target, read_number,
};
use std::alloc::Global;
use std::str;
use std::test::Fail;

const NAMES: [(&str, bool); 7] = [
    ("", false),
    ("a", true),
    ("/data/a b", true),
    ("\u{e9}", true),
    ("a\0", false),
    ("\0", false),
    (".", true),
];

const LONG: [u8; 513] = [b'x'; 513];

// Whether these bytes spell a name.
fn spell_name(bytes: &[u8]) -> bool {
    match str::from_utf8(bytes) {
        Ok(text) => is_name(text),
        Err(_) => false,
    }
}

#[test]
fn names_have_1_to_512_bytes_and_no_zero(rt: HostRuntime) {
    for (name, want) in &NAMES {
        assert!(rt; is_name(name) == *want, "{name}");
    }
    assert!(rt; spell_name(&LONG[..512]));
    assert!(rt; !spell_name(&LONG));
}

const TARGETS: [(&str, bool); 21] = [
    ("a", true),
    ("/data/a", true),
    ("dir.new/a", true),
    ("x.recovery/y", true),
    ("...", true),
    (".hidden", true),
    ("a.", true),
    ("a.news", true),
    ("new", true),
    ("", false),
    ("/", false),
    ("dir/", false),
    (".", false),
    ("..", false),
    ("dir/.", false),
    ("dir/..", false),
    ("a.recovery", false),
    ("dir/a.new", false),
    (".new", false),
    (".recovery", false),
    ("dir/\0", false),
];

#[test]
fn a_protected_file_may_not_have_each_name(rt: HostRuntime) {
    for (name, want) in &TARGETS {
        assert!(rt; is_target(name) == *want, "{name}");
    }
}

const NUMBERS: [(&str, Option<u64>); 15] = [
    ("0", Some(0)),
    ("7", Some(7)),
    ("4096", Some(4096)),
    ("18446744073709551615", Some(u64::MAX)),
    ("18446744073709551616", None),
    ("99999999999999999999", None),
    ("", None),
    ("00", None),
    ("07", None),
    ("+7", None),
    ("-7", None),
    ("7 ", None),
    ("7_0", None),
    ("0x7", None),
    ("\u{0667}", None),
];

#[test]
fn numbers_have_no_sign_and_no_leading_zero(rt: HostRuntime) {
    for (text, want) in &NUMBERS {
        assert!(rt; read_number(text.as_bytes()) == *want, "{text}");
    }
    assert!(rt; read_number(&[0xff]) == None);
}

#[test]
fn texts_are_owned(rt: HostRuntime) -> Result<(), Fail> {
    let text = Text::copy(rt.alloc(), "na\u{ef}ve")?;
    let joined = Text::joined(rt.alloc(), text.as_str(), ".new")?;
    let plain = String::from(joined);
    assert!(rt; Text::from(plain).as_str() == "na\u{ef}ve.new");
    Ok(())
}

#[test]
fn bytes_are_owned(rt: HostRuntime) -> Result<(), Fail> {
    let mut bytes = Bytes::zeroed(rt.alloc(), 3)?;
    bytes.as_mut_slice()[1] = 7;
    let list = Vec::from(bytes);
    assert!(rt; Bytes::from(list).as_slice() == [0, 7, 0].as_slice());
    Ok(())
}

// A name, a place, and what is opened there.
const OPENED: [(&str, u64, Opened); 5] = [
    ("a", 0, (Some(5), 4, *b"newe")),
    ("a", 3, (Some(5), 2, *b"er\t\t")),
    ("a", u64::MAX, (Some(5), 0, [9; 4])),
    ("b", 0, (Some(5), 4, *b"othe")),
    ("c", 0, (None, 0, [9; 4])),
];

fn put_files(host: &mut MemHost) -> Result<(), Fail> {
    host.put("a", b"old")?;
    host.put("b", b"other")?;
    host.put("a", b"newer")?;
    Ok(())
}

#[test]
fn a_host_in_memory_has_what_was_put(rt: HostRuntime) -> Result<(), Fail> {
    let mut host = MemHost::new(rt.alloc());
    put_files(&mut host)?;
    for (name, at, want) in &OPENED {
        assert!(rt; opened(&mut host, name, *at) == Ok(*want));
    }
    Ok(())
}

// Each opening makes two calls.
#[test]
fn a_host_in_memory_fails_where_it_is_told_to(rt: HostRuntime) -> Result<(), Fail> {
    let mut host = MemHost::new(rt.alloc());
    host.put("a", b"abc")?;
    host.fail_at(3)?;
    host.fail_at(1)?;
    for want in [Err(HostFault), Err(HostFault), Ok((Some(3), 3, *b"abc\t"))] {
        assert!(rt; opened(&mut host, "a", 0) == want);
    }
    assert!(rt; host.starved() == 0);
    Ok(())
}

#[test]
fn a_source_in_memory_gives_its_bytes_in_order(rt: HostRuntime) -> Result<(), Fail> {
    let mut source = MemSource::new(Bytes::copy(rt.alloc(), b"abcde")?);
    source.fail_at(1);
    let mut to = [b'-'; 3];
    assert!(rt; source.read(&mut to) == Ok(3));
    assert!(rt; to == *b"abc");
    assert!(rt; source.read(&mut to) == Err(StreamFault));
    assert!(rt; source.read(&mut to) == Ok(2));
    assert!(rt; to == *b"dec");
    assert!(rt; source.read(&mut to) == Ok(0));
    Ok(())
}

#[test]
fn a_sink_in_memory_keeps_what_it_takes(rt: HostRuntime) {
    let mut sink = MemSink::new(rt.alloc());
    sink.fail_at(1);
    assert!(rt; sink.write(b"ab") == Ok(()));
    assert!(rt; sink.write(b"xx") == Err(StreamFault));
    assert!(rt; sink.write(b"c") == Ok(()));
    assert!(rt; sink.bytes() == b"abc".as_slice());
    assert!(rt; sink.starved() == 0);
}

// A length of 5, and these bytes.
fn answer_file(alloc: Global, host: &mut ScriptHost, bytes: &[u8]) -> Result<(), Fail> {
    host.answer(Answer::Len(Some(5)))?;
    host.answer(Answer::Given(Bytes::copy(alloc, bytes)?))?;
    Ok(())
}

fn answer_calls(host: &mut ScriptHost, count: usize) -> Result<(), Fail> {
    for _ in 0..count {
        host.answer(Answer::Done)?;
    }
    Ok(())
}

#[test]
fn a_scripted_host_takes_the_next_answer(rt: HostRuntime) -> Result<(), Fail> {
    let mut host = ScriptHost::new(rt.alloc());
    answer_file(rt.alloc(), &mut host, b"hello")?;
    answer_file(rt.alloc(), &mut host, b"he")?;
    answer_calls(&mut host, 10)?;
    assert!(rt; opened(&mut host, "a", 1) == Ok((Some(5), 4, *b"hell")));
    assert!(rt; opened(&mut host, "a", 1) == Ok((Some(5), 2, *b"he\t\t")));
    expect_each(&rt, &mut host, &SCRIPT, Ok(()));
    assert!(rt; host.starved() == 0);
    Ok(())
}

#[test]
fn a_missing_answer_and_one_of_another_form_are_faults(rt: HostRuntime) -> Result<(), Fail> {
    let mut host = ScriptHost::new(rt.alloc());
    host.answer(Answer::Done)?;
    assert!(rt; opened(&mut host, "a", 0) == Err(HostFault));
    host.answer(Answer::Fail)?;
    host.answer(Answer::Len(None))?;
    expect_each(&rt, &mut host, &SCRIPT, Err(HostFault));
    assert!(rt; host.starved() == 0);
    Ok(())
}
