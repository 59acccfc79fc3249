use node_layout::{Damage, Kind, PathText};
use pf_io::{Bytes, MemSink, MemSource, Text};
use pf_script::{LineReader, NextLine, Reply, Why, write_reply};
use std::alloc::{AllocError, Global};
use std::test::Fail;

fn bytes_of(alloc: Global, text: &[u8]) -> Result<Bytes, AllocError> {
    let mut bytes = Vec::new(alloc);
    bytes.extend_from_slice(text)?;
    Ok(bytes.into())
}

#[test]
fn a_line_is_given_before_more_is_asked(rt: HostRuntime) -> Result<(), Fail> {
    let mut source = MemSource::new(bytes_of(rt.alloc(), b"a\nb\nc")?);
    source.fail_at(1);
    let Ok(mut reader) = LineReader::new(rt.alloc()) else {
        panic!(rt; "want of memory");
    };
    for line in [b"a", b"b"] {
        assert!(rt; matches!(reader.advance(&mut source), Ok(NextLine::Whole)));
        assert!(rt; reader.line() == line.as_slice());
    }
    assert!(rt; reader.advance(&mut source).is_err());
    assert!(rt; reader.advance(&mut source).is_err());
    Ok(())
}

// Says whether a reply is printed as this line.
fn prints(alloc: Global, reply: Reply, line: &str) -> bool {
    let mut out = MemSink::new(alloc);
    let result = write_reply(&mut out, &reply);
    result.is_ok() && out.bytes() == line.as_bytes()
}

#[test]
fn replies_are_printed_as_lines(rt: HostRuntime) -> Result<(), Fail> {
    for (reply, line) in [
        (Reply::None, ""),
        (Reply::Created, "ok create\n"),
        (Reply::Opened { size: 396289 }, "ok open 396289\n"),
        (
            Reply::Viewed {
                size: 3,
                logged: None,
            },
            "ok view 3\n",
        ),
        (
            Reply::Written {
                count: 32768,
                flushed: true,
            },
            "ok write 32768 flushed\n",
        ),
        (
            Reply::Written {
                count: 5,
                flushed: false,
            },
            "ok write 5\n",
        ),
        (Reply::Sized { size: 0 }, "ok size 0\n"),
        (Reply::Flushed, "ok flush\n"),
        (Reply::Moved, "ok move\n"),
        (
            Reply::Drawn { nonce: [0xa5; 32] },
            "ok draw a5a5a5a5a5a5a5a5a5a5a5a5a5a5a5a5a5a5a5a5a5a5a5a5a5a5a5a5a5a5a5a5\n",
        ),
        (Reply::Closed { lost: false }, "ok close\n"),
        (Reply::Closed { lost: true }, "ok close lost\n"),
    ] {
        assert!(rt; prints(rt.alloc(), reply, line), "{line}");
    }
    Ok(())
}

#[test]
fn damages_and_faults_are_printed_as_lines(rt: HostRuntime) -> Result<(), Fail> {
    for (reply, line) in [
        (
            Reply::DamagedNode {
                damage: Damage {
                    node: 99,
                    kind: Kind::Tag,
                },
            },
            "damaged node 99 tag\n",
        ),
        (Reply::DamagedChunk { chunk: 2 }, "damaged chunk 2\n"),
        (Reply::HostFault, "host fault\n"),
        (Reply::WordsFault, "random fault\n"),
    ] {
        assert!(rt; prints(rt.alloc(), reply, line), "{line}");
    }
    Ok(())
}

#[test]
fn bytes_that_were_read_are_printed_in_hexadecimal(rt: HostRuntime) -> Result<(), Fail> {
    for (text, line) in [
        ("hello!", "ok read 6 68656c6c6f21\n"),
        ("bc", "ok read 2 6263\n"),
        ("", "ok read 0\n"),
    ] {
        let bytes = bytes_of(rt.alloc(), text.as_bytes())?;
        assert!(rt; prints(rt.alloc(), Reply::Given { bytes }, line), "{line}");
    }
    Ok(())
}

fn refused(why: Why) -> Reply {
    Reply::Refused { why }
}

#[test]
fn refusals_are_printed_by_their_rules(rt: HostRuntime) -> Result<(), Fail> {
    for (why, line) in [
        (Why::SeatBusy, "refused seat busy\n"),
        (Why::SeatEmpty, "refused seat empty\n"),
        (Why::NameBusy, "refused name busy\n"),
        (Why::BadName, "refused bad name\n"),
        (Why::NotProtected, "refused not protected\n"),
        (Why::TooLong, "refused too long\n"),
        (Why::TooLarge, "refused too large\n"),
        (Why::ReadOnly, "refused read-only\n"),
        (Why::Broken, "refused broken\n"),
        (Why::TargetExists, "refused target exists\n"),
        (Why::NoManifest, "refused no manifest\n"),
        (Why::BadPath, "refused bad path\n"),
        (Why::NoHostFile, "refused no host file\n"),
        (
            Why::BadVersion {
                major: 2,
                minor: 10,
            },
            "refused version 2.10\n",
        ),
        (Why::PastEnd { size: 6 }, "refused past end 6\n"),
        (
            Why::WrongSum { found: [0x0f; 32] },
            "refused wrong sum 0f0f0f0f0f0f0f0f0f0f0f0f0f0f0f0f0f0f0f0f0f0f0f0f0f0f0f0f0f0f0f0f\n",
        ),
    ] {
        assert!(rt; prints(rt.alloc(), refused(why), line), "{line}");
    }
    Ok(())
}

fn text_of(alloc: Global, text: &str) -> Result<Text, AllocError> {
    let text = String::from_str(alloc, text)?;
    Ok(text.into())
}

#[test]
fn refusals_name_uris(rt: HostRuntime) -> Result<(), Fail> {
    let uri = text_of(rt.alloc(), "file:app/other")?;
    assert!(rt;
        prints(
            rt.alloc(),
            refused(Why::Denied { uri }),
            "refused denied file:app/other\n"
        )
    );
    let uri = text_of(rt.alloc(), "file:y")?;
    assert!(rt;
        prints(
            rt.alloc(),
            refused(Why::NoSum { uri }),
            "refused no sum file:y\n"
        )
    );
    Ok(())
}

#[test]
fn refusals_name_what_they_refuse(rt: HostRuntime) -> Result<(), Fail> {
    let name = text_of(rt.alloc(), "a b.pf")?;
    assert!(rt;
        prints(
            rt.alloc(),
            refused(Why::Exists { name }),
            "refused exists a b.pf\n"
        )
    );
    let name = text_of(rt.alloc(), "x")?;
    assert!(rt;
        prints(
            rt.alloc(),
            refused(Why::NotFound { name }),
            "refused not found x\n"
        )
    );
    let name = text_of(rt.alloc(), "disk")?;
    assert!(rt;
        prints(
            rt.alloc(),
            refused(Why::NoKey { name }),
            "refused no key disk\n"
        )
    );
    if let Some(stored) = PathText::new("a.pf") {
        let reply = refused(Why::WrongPath { stored });
        assert!(rt; prints(rt.alloc(), reply, "refused wrong path a.pf\n"));
    }
    Ok(())
}
