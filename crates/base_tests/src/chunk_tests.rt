ghost use Rattle.std.specs.Prelude.{◌≡◌, ◌≤◌, length, IfOk};

use pf_fakes::{Answer, ScriptHost};
use pf_io::{Bytes, MemHost};
use sha2::{Digest, Sha256};
use std::alloc::Global;
use std::test::Fail;
use trusted_chunks::{ChunkFault, TrustFault, TrustedFile};

// Room for so many bytes.
fn room_for(alloc: Global, len: usize) -> Result<Vec<u8>, Fail>
    ensures { IfOk result (λ room. length room.items ≡ len) }
{
    let room = vec![in alloc; 0; len]?;
    Ok(room)
}

// A content that shows its place: 251 is a prime, so bytes of two chunks at one place differ.
fn add_content(bytes: &mut Vec<u8>, len: usize) -> Result<(), Fail> {
    for place in 0..len {
        bytes.push((place % 251) as u8)?;
    }
    Ok(())
}

fn content(alloc: Global, len: usize) -> Result<Vec<u8>, Fail> {
    let mut bytes = Vec::new(alloc);
    add_content(&mut bytes, len)?;
    Ok(bytes)
}

fn host_of(alloc: Global, bytes: &[u8]) -> Result<MemHost, Fail> {
    let mut host = MemHost::new(alloc);
    host.put("a", bytes)?;
    Ok(host)
}

fn open(alloc: Global, host: &mut MemHost, bytes: &[u8]) -> Result<TrustedFile, TrustFault> {
    TrustedFile::open(alloc, host, "a", &Sha256::digest(bytes))
}

// Reads with so much room, and says whether the bytes are those of the content.
fn reads(
    alloc: Global,
    file: &mut TrustedFile,
    host: &mut MemHost,
    at: usize,
    room: usize,
    bytes: &[u8],
) -> Result<bool, Fail>
    requires { room ≤ 32768 }
{
    let mut to = room_for(alloc, room)?;
    let same = match (bytes.get(at..), file.read(host, at as u64, &mut to)) {
        (Some(rest), Ok(n)) => n == rest.len().min(room) && rest.starts_with(&to[..n]),
        _ => false,
    };
    Ok(same)
}

#[test]
fn slices_of_the_file_are_read(rt: HostRuntime) -> Result<(), Fail> {
    let alloc = rt.alloc();
    for len in [0, 16384, 40000] {
        let bytes = content(alloc, len)?;
        let mut host = host_of(alloc, &bytes)?;
        let mut file = open(alloc, &mut host, &bytes)?;
        assert!(rt; file.len() == len as u64);
        for at in [0, 16383, 16384, 39999, 40000] {
            if at <= len {
                let same = reads(alloc, &mut file, &mut host, at, 32768, &bytes)?;
                assert!(rt; same, "{at}");
            }
        }
        let mut to = *b"....";
        assert!(rt; file.read(&mut host, 50000, &mut to) == Ok(0));
    }
    Ok(())
}

#[test]
fn four_chunks_are_kept_and_a_fifth_pushes_the_first_out(rt: HostRuntime) -> Result<(), Fail> {
    let bytes = content(rt.alloc(), 80000)?;
    let mut host = host_of(rt.alloc(), &bytes)?;
    let mut file = open(rt.alloc(), &mut host, &bytes)?;
    for chunk in 0..5 {
        let same = reads(rt.alloc(), &mut file, &mut host, 16384 * chunk, 1, &bytes)?;
        assert!(rt; same);
    }
    host.stop_at(0);
    for chunk in 1..5 {
        let same = reads(rt.alloc(), &mut file, &mut host, 16384 * chunk, 1, &bytes)?;
        assert!(rt; same);
    }
    let mut to = *b".";
    assert!(rt; file.read(&mut host, 0, &mut to) == Err(ChunkFault::Host));
    Ok(())
}

#[test]
fn a_changed_chunk_is_named(rt: HostRuntime) -> Result<(), Fail> {
    let alloc = rt.alloc();
    let bytes = content(alloc, 40000)?;
    let mut host = ScriptHost::new(alloc);
    host.answer(Answer::Len(Some(40000)))?;
    for slice in bytes.chunks(16384) {
        host.answer(Answer::Given(Bytes::copy(alloc, slice)?))?;
    }
    for slice in bytes.chunks(16384).take(2) {
        host.answer(Answer::Given(Bytes::copy(alloc, slice)?))?;
    }
    host.answer(Answer::Given(Bytes::copy(alloc, b"changed")?))?;
    let mut file = TrustedFile::open(alloc, &mut host, "a", &Sha256::digest(&bytes))?;
    let mut to = room_for(alloc, 32768)?;
    assert!(rt; file.read(&mut host, 0, &mut to) == Ok(32768));
    assert!(rt; bytes.starts_with(&to));
    let damaged = file.read(&mut host, 32768, &mut to);
    assert!(rt; damaged == Err(ChunkFault::Damaged { chunk: 2 }));
    Ok(())
}

#[test]
fn refusals_have_their_causes(rt: HostRuntime) -> Result<(), Fail> {
    let mut host = host_of(rt.alloc(), b"abc")?;
    let sum = Sha256::digest(b"abc");
    let other = Sha256::digest(b"abd");
    let absent = TrustedFile::open(rt.alloc(), &mut host, "b", &sum).err();
    assert!(rt; absent == Some(TrustFault::NotFound));
    let wrong = TrustedFile::open(rt.alloc(), &mut host, "a", &other).err();
    assert!(rt; wrong == Some(TrustFault::WrongSum { found: sum }));
    Ok(())
}
