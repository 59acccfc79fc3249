use crate::manifests::{ABC, REALISTIC, manifest};
use check_policy::{Place, ResolveFault, Verdict, decide, normal, resolve};
use manifest_model::Manifest;
use std::alloc::Global;
use std::process::Abort;
use std::test::Fail;

const MOUNTS: &str = "fs.root = { uri = \"file:base\" }
fs.mounts = [
  { path = \"/a/b\", uri = \"file:first\" },
  { path = \"/a/./b/\", uri = \"file:second/\" },
  { path = \"/a\", uri = \"file:/above\" },
  { type = \"tmpfs\", path = \"/tmp\", uri = \"file:tmp\" },
  { type = \"encrypted\", path = \"/elsewhere\", uri = \"dev:disk\" },
  { type = \"encrypted\", path = \"/l\", uri = \"file:locked\" },
]
sgx.file_check_policy = \"allow_all_but_log\"
sgx.trusted_files = [ \"file:a\", { uri = \"file:b\", sha256 = \"ba7816bf8f01cfea414140de5dae2223b00361a396177a9cb410ff61f20015ad\" } ]
sgx.allowed_files = [ \"file:./b\", \"file:a\" ]
";

const KEY: [u8; 16] = [0, 1, 2, 3, 4, 5, 6, 7, 8, 9, 10, 11, 12, 13, 14, 15];

// Whether a path leads to a place of that kind, or is refused so, with that name.
fn leads(alloc: Global, manifest: &Manifest, path: &str, kind: &str, wanted: &str) -> bool {
    match resolve(alloc, manifest, path) {
        Ok(Place::HostFile { uri, name }) => {
            kind == "file"
                && name.as_str() == wanted
                && uri.as_str().strip_prefix("file:") == Some(wanted)
        }
        Ok(Place::Protected { name, key }) => {
            kind == "protected" && name.as_str() == wanted && key == KEY
        }
        Ok(Place::Nothing) => kind == "nothing",
        Err(ResolveFault::BadPath) => kind == "bad path",
        Err(ResolveFault::NoKey { name }) => kind == "no key" && name.as_str() == wanted,
        Err(ResolveFault::Memory) => false,
    }
}

fn joined(alloc: Global, front: &str, unit: &str, count: usize) -> Result<String, Fail> {
    let mut text = String::from_str(alloc, front)?;
    for _ in 0..count {
        text.push_str(unit)?;
    }
    Ok(text)
}

// Each row has a path, the kind of its place and a name.
fn expect_places(rt: &impl Abort, alloc: Global, manifest: &Manifest, rows: &[(&str, &str, &str)]) {
    for (path, kind, name) in rows {
        assert!(rt; leads(alloc, manifest, path, kind, name), "{path}");
    }
}

fn expect_verdicts(rt: &impl Abort, manifest: &Manifest, rows: &[(&str, Verdict)]) {
    for (uri, verdict) in rows {
        assert!(rt; decide(manifest, uri) == *verdict, "{uri}");
    }
}

#[test]
fn paths_of_the_realistic_manifest_lead_to_its_files(rt: HostRuntime) {
    let manifest = manifest(&rt, rt.alloc(), REALISTIC);
    let rows = [
        ("/app/hello", "file", "app/hello"),
        ("/app/../app//notes", "file", "app/notes"),
        ("/lib/libsysdb.so", "file", "/opt/gramine/libsysdb.so"),
        ("/data/x.pf", "protected", "data/x.pf"),
        ("/app2/hello", "file", "app2/hello"),
        ("/", "file", "."),
        ("app/hello", "bad path", ""),
        ("/app\0", "bad path", ""),
        ("", "bad path", ""),
    ];
    expect_places(&rt, rt.alloc(), &manifest, &rows);
}

#[test]
fn the_realistic_manifest_decides_on_its_files(rt: HostRuntime) {
    let manifest = manifest(&rt, rt.alloc(), REALISTIC);
    let rows = [
        ("file:app/hello", Verdict::Trusted(ABC)),
        ("file:app/notes", Verdict::Allowed),
        ("file:app/other", Verdict::Denied),
        ("file:/opt/gramine/libsysdb.so", Verdict::NoSum),
        ("file:./app/hello", Verdict::Denied),
        ("app/hello", Verdict::Denied),
    ];
    expect_verdicts(&rt, &manifest, &rows);
}

#[test]
fn trusted_comes_before_allowed_and_the_policy_last(rt: HostRuntime) {
    let manifest = manifest(&rt, rt.alloc(), MOUNTS);
    let rows = [
        ("file:a", Verdict::NoSum),
        ("file:b", Verdict::Trusted(ABC)),
        ("file:c", Verdict::Logged),
    ];
    expect_verdicts(&rt, &manifest, &rows);
}

#[test]
fn the_last_mount_with_the_most_parts_serves(rt: HostRuntime) {
    let manifest = manifest(&rt, rt.alloc(), MOUNTS);
    let rows = [
        ("/a/b/c", "file", "second/c"),
        ("/a/b", "file", "second"),
        ("/a/bc", "file", "/above/bc"),
        ("/a", "file", "/above"),
        ("/other", "file", "base/other"),
        ("/tmp/x", "nothing", ""),
        ("/elsewhere/x", "nothing", ""),
        ("/l/x", "no key", "default"),
    ];
    expect_places(&rt, rt.alloc(), &manifest, &rows);
}

#[test]
fn names_have_at_most_512_bytes_before_a_key_is_sought(rt: HostRuntime) -> Result<(), Fail> {
    let alloc = rt.alloc();
    let manifest = manifest(&rt, alloc, MOUNTS);
    let path = joined(alloc, "/a", "/", 510)?;
    assert!(rt; leads(alloc, &manifest, path.as_str(), "file", "/above"));
    let path = joined(alloc, "/a", "/", 511)?;
    assert!(rt; leads(alloc, &manifest, path.as_str(), "bad path", ""));
    let name = joined(alloc, "second/", "x", 505)?;
    for (mount, count, kind, name) in [
        ("/a/b/", 505, "file", name.as_str()),
        ("/a/b/", 506, "bad path", ""),
        ("/l/", 505, "no key", "default"),
        ("/l/", 506, "bad path", ""),
    ] {
        let path = joined(alloc, mount, "x", count)?;
        assert!(rt;
            leads(alloc, &manifest, path.as_str(), kind, name),
            "{mount}"
        );
    }
    Ok(())
}

#[test]
fn a_path_has_a_normal_form(rt: HostRuntime) {
    let Ok(path) = normal(rt.alloc(), "/a/../b//") else {
        panic!(rt; "no memory");
    };
    assert!(rt; path.as_str() == "/b");
}
