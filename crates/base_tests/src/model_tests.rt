use crate::manifests::{ABC, REALISTIC, manifest};
use manifest_model::{Manifest, MountKind, Policy, normal_name};
use std::process::Abort;
use std::test::Fail;

// How many trusted files, allowed ones and mounts there are.
fn counts(manifest: &Manifest) -> (usize, usize, usize) {
    (
        manifest.trusted_len(),
        manifest.allowed_len(),
        manifest.mounts_len(),
    )
}

fn has_trusted(
    manifest: &Manifest,
    k: usize,
    uri: &str,
    name: &str,
    sum: Option<[u8; 32]>,
) -> bool {
    if k >= manifest.trusted_len() {
        return false;
    }
    let file = manifest.trusted(k);
    file.uri.as_str() == uri && file.name.as_str() == name && file.sum == sum
}

fn has_allowed(manifest: &Manifest, k: usize, uri: &str) -> bool {
    k < manifest.allowed_len() && manifest.allowed(k).as_str() == uri
}

fn has_mount(
    manifest: &Manifest,
    k: usize,
    kind: MountKind,
    path: &str,
    name: Option<&str>,
    key: &str,
) -> bool {
    if k >= manifest.mounts_len() {
        return false;
    }
    let mount = manifest.mount(k);
    let found = match &mount.name {
        Some(name) => Some(name.as_str()),
        None => None,
    };
    mount.kind == kind
        && mount.path.as_str() == path
        && found == name
        && mount.key_name.as_str() == key
}

fn expect_realistic(rt: &impl Abort, manifest: &Manifest) {
    assert!(rt; manifest.policy() == Policy::Strict && counts(manifest) == (2, 1, 4));
    let library = "file:/opt/gramine/libsysdb.so";
    assert!(rt; has_trusted(manifest, 0, library, "/opt/gramine/libsysdb.so", None));
    assert!(rt; has_trusted(manifest, 1, "file:app/hello", "app/hello", Some(ABC)));
    assert!(rt; has_allowed(manifest, 0, "file:app/notes"));
    for (k, kind, path, name, key) in [
        (0, MountKind::Chroot, "/", Some("."), "default"),
        (
            1,
            MountKind::Chroot,
            "/lib",
            Some("/opt/gramine"),
            "default",
        ),
        (2, MountKind::Chroot, "/app", Some("app"), "default"),
        (3, MountKind::Encrypted, "/data", Some("data"), "disk"),
    ] {
        assert!(rt; has_mount(manifest, k, kind, path, name, key));
    }
    let key = [0, 1, 2, 3, 4, 5, 6, 7, 8, 9, 10, 11, 12, 13, 14, 15];
    assert!(rt; manifest.key("disk") == Some(key));
    assert!(rt; manifest.key("default").is_none());
}

#[test]
fn the_realistic_manifest_is_read_printed_and_read_again(rt: HostRuntime) -> Result<(), Fail> {
    let read = manifest(&rt, rt.alloc(), REALISTIC);
    expect_realistic(&rt, &read);
    let text = read.print(rt.alloc())?;
    let again = manifest(&rt, rt.alloc(), text.as_str());
    expect_realistic(&rt, &again);
    Ok(())
}

const OTHER: &str = "sgx.file_check_policy = \"allow_all_but_log\"
fs.root = { type = \"tmpfs\", uri = \"dev:tty\", key_name = \"x\" }
fs.mounts = [ { path = \"/a//b/../c/\", type = \"tmpfs\" } ]
";

#[test]
fn lists_without_tables_are_empty(rt: HostRuntime) {
    let empty = manifest(&rt, rt.alloc(), "");
    assert!(rt; empty.policy() == Policy::Strict && counts(&empty) == (0, 0, 1));
    assert!(rt; has_mount(&empty, 0, MountKind::Chroot, "/", Some("."), "default"));
    let other = manifest(&rt, rt.alloc(), OTHER);
    assert!(rt; other.policy() == Policy::AllowAllButLog && counts(&other) == (0, 0, 2));
    assert!(rt; has_mount(&other, 0, MountKind::Other, "/", None, "default"));
    assert!(rt; has_mount(&other, 1, MountKind::Other, "/a/c", None, "default"));
}

const SAME_URIS: &str = "sgx.trusted_files = [
  \"file:a/../b\",
  \"file:c\",
  { uri = \"file:./b\", sha256 = \"ba7816bf8f01cfea414140de5dae2223b00361a396177a9cb410ff61f20015ad\" },
  \"file:b\",
]
sgx.allowed_files = [ \"file:./x\", \"file:x\" ]
";

#[test]
fn entries_are_one_for_each_normal_uri(rt: HostRuntime) {
    let manifest = manifest(&rt, rt.alloc(), SAME_URIS);
    assert!(rt; counts(&manifest) == (2, 2, 1));
    assert!(rt; has_trusted(&manifest, 0, "file:a/../b", "b", Some(ABC)));
    assert!(rt; has_trusted(&manifest, 1, "file:c", "c", None));
    assert!(rt; has_allowed(&manifest, 0, "file:x") && has_allowed(&manifest, 1, "file:x"));
}

const NORMAL_NAMES: [(&str, &str); 6] = [
    ("", "."),
    ("/", "/"),
    ("a//b/./c", "a/b/c"),
    ("/../a", "/a"),
    ("../a/../..", "../.."),
    ("a/..", "."),
];

#[test]
fn names_have_normal_forms(rt: HostRuntime) -> Result<(), Fail> {
    let alloc = rt.alloc();
    for (name, normal) in &NORMAL_NAMES {
        let found = normal_name(alloc, name)?;
        assert!(rt; found.as_str() == *normal, "{name}");
    }
    Ok(())
}
