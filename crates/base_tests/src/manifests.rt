//! Manifests that several tests read.
use manifest_model::Manifest;
use std::alloc::Global;
use std::process::Abort;

pub(crate) const REALISTIC: &str = "loader.entrypoint = \"file:/opt/gramine/libsysdb.so\"
loader.log_level = \"error\"
libos.entrypoint = \"/app/hello\"
fs.mounts = [
  { path = \"/lib\", uri = \"file:/opt/gramine\" },
  { path = \"/app\", uri = \"file:app\" },
  { type = \"encrypted\", path = \"/data\", uri = \"file:data\", key_name = \"disk\" },
]
fs.insecure__keys.disk = \"000102030405060708090a0b0c0d0e0f\"
sgx.debug = true
sgx.enclave_size = \"256M\"
sgx.file_check_policy = \"strict\"
sgx.trusted_files = [
  \"file:/opt/gramine/libsysdb.so\",
  { uri = \"file:app/hello\", sha256 = \"ba7816bf8f01cfea414140de5dae2223b00361a396177a9cb410ff61f20015ad\" },
]
sgx.allowed_files = [ \"file:app/notes\" ]
";

pub(crate) const ABC: [u8; 32] = [
    0xba, 0x78, 0x16, 0xbf, 0x8f, 0x01, 0xcf, 0xea, 0x41, 0x41, 0x40, 0xde, 0x5d, 0xae, 0x22, 0x23,
    0xb0, 0x03, 0x61, 0xa3, 0x96, 0x17, 0x7a, 0x9c, 0xb4, 0x10, 0xff, 0x61, 0xf2, 0x00, 0x15, 0xad,
];

// The manifest of a text, which has to be one.
pub(crate) fn manifest(rt: &impl Abort, alloc: Global, text: &str) -> Manifest {
    match Manifest::read(alloc, text.as_bytes()) {
        Ok(manifest) => manifest,
        Err(_fault) => panic!(rt; "refused"),
    }
}
