use crate::TrustedFile;
use lru::LruCache;
use pf_io::{Bytes, MemHost, Text};
use sha2::{Digest, Sha256};
use std::alloc::Global;
use std::test::Fail;

#[test]
fn a_trusted_file_keeps_hashes_and_chunks_alone(rt: HostRuntime) -> Result<(), Fail> {
    let mut host = MemHost::new(rt.alloc());
    host.put("a", b"abc")?;
    let file = TrustedFile::open(rt.alloc(), &mut host, "a", &Sha256::digest(b"abc"))?;
    let TrustedFile {
        alloc,
        name,
        len,
        hashes,
        kept,
    } = &file;
    let _alloc: &Global = alloc;
    let name: &Text = name;
    let len: &u64 = len;
    let hashes: &Vec<[u8; 32]> = hashes;
    let kept: &LruCache<u32, Bytes> = kept;
    assert!(rt; name.as_str() == "a" && *len == 3);
    assert!(rt; hashes.len() == 1 && kept.len() == 0);
    Ok(())
}
