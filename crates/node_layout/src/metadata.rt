// The metadata node: what stands in the open, and the text of its encrypted part.
ghost use Rattle.std.specs.Prelude.{◌≡◌, ◌↔◌, ◌≤◌, IsOk, IfOk, IfErr};
ghost use Rattle.node_layout.specs.Metadata.{IsPlain, nonce_at, tag_at, flag_at, meta_text, IsMetaText, MOST_SIZE};
ghost use Rattle.node_layout.specs.Faults.{IsPlainFault, IsSecretFault, IsSomeMetaText};

use crate::bytes::{array_at, put_array};
use crate::path::PathText;

// The bytes that a protected file begins with.
pub(crate) const MAGIC: [u8; 8] = *b"GRPFTOOL";

// The most bytes that a protected file's content may have.
const MAX_SIZE: u64 = 1 << 32;

/// What stands in the open in a metadata node.
#[derive(Clone, Copy, Debug, PartialEq, Eq)]
pub struct MetaPlain {
    /// From it and the user's key comes the key of the encrypted part.
    pub nonce: [u8; 32],
    /// The tag of the encrypted part.
    pub tag: [u8; 16],
    /// 0 where no update is pending.
    pub flag: u8,
}

/// Why a node is no metadata node of version 1.0.
#[derive(Clone, Copy, Debug, PartialEq, Eq)]
pub enum PlainFault {
    /// It does not begin with `GRPFTOOL`.
    NotProtected,
    /// It has another version than 1.0.
    BadVersion { major: u8, minor: u8 },
}

impl MetaPlain {
    /// Reads the fields that stand in the open. The flag may have any value.
    ///
    /// The answer is `NotProtected` where the magic differs, and else `BadVersion` with the two
    /// bytes where they are not 1 and 0.
    pub fn read(node: &[u8; 4096]) -> Result<MetaPlain, PlainFault>
        ensures accepted { IsOk result ↔ IsPlain node.now }
        ensures nonce { IfOk result (λ plain. plain.nonce ≡ nonce_at node.now) }
        ensures tag { IfOk result (λ plain. plain.tag ≡ tag_at node.now) }
        ensures flag { IfOk result (λ plain. plain.flag ≡ flag_at node.now) }
        ensures refused { IfErr result (IsPlainFault node.now) }
    {
        if array_at::<8>(node, 0) != MAGIC {
            return Err(PlainFault::NotProtected);
        }
        let major = node[8];
        let minor = node[9];
        if major != 1 || minor != 0 {
            return Err(PlainFault::BadVersion { major, minor });
        }
        Ok(MetaPlain {
            nonce: array_at(node, 10),
            tag: array_at(node, 42),
            flag: node[58],
        })
    }
}

/// What the encrypted part of a metadata node says.
#[derive(Drop)]
pub struct MetaSecret {
    /// The path that the file is stored under.
    pub path: PathText,
    /// The length of the content in bytes.
    pub size: u64,
    /// The key of the tree's root. It has no meaning where the content needs no tree.
    pub root_key: [u8; 16],
    /// The tag of the tree's root, likewise.
    pub root_tag: [u8; 16],
    /// The first bytes of the content.
    pub first: [u8; 3072],
}

/// Why a text is none of an encrypted part.
#[derive(Clone, Copy, Debug, PartialEq, Eq)]
pub enum SecretFault {
    /// The field of the path is not a path padded with zeros.
    BadPathText,
    /// The size is above 2^32 bytes.
    BadSize { size: u64 },
}

impl MetaSecret {
    /// Reads the text of an encrypted part. The bytes behind the content may have any value.
    ///
    /// The answer is `BadPathText` where the path's field is not a path padded with zeros, and else
    /// `BadSize` where the size is above 2^32.
    pub fn read(part: &[u8; 3880]) -> Result<MetaSecret, SecretFault>
        ensures accepted { IsOk result ↔ IsSomeMetaText part.now }
        ensures fields { IfOk result (λ secret. IsMetaText part.now secret.path secret.size secret.root_key secret.root_tag secret.first) }
        ensures refused { IfErr result (IsSecretFault part.now) }
    {
        let Some(path) = PathText::from_field(&array_at(part, 0)) else {
            return Err(SecretFault::BadPathText);
        };
        let size = u64::from_le_bytes(array_at(part, 768));
        if size > MAX_SIZE {
            return Err(SecretFault::BadSize { size });
        }
        Ok(MetaSecret {
            path,
            size,
            root_key: array_at(part, 776),
            root_tag: array_at(part, 792),
            first: array_at(part, 808),
        })
    }
    /// Writes the text of the encrypted part, all of its bytes.
    ///
    /// `MetaSecret::read` gives the same fields again, where the size is at most 2^32.
    pub fn write(&self, part: &mut [u8; 3880])
        ensures text { part.new ≡ meta_text self.now.path self.now.size self.now.root_key self.now.root_tag self.now.first }
        ensures read_again { self.now.size ≤ MOST_SIZE → IsMetaText part.new self.now.path self.now.size self.now.root_key self.now.root_tag self.now.first }
    {
        put_array(part, 0, self.path.field());
        put_array(part, 768, &self.size.to_le_bytes());
        put_array(part, 776, &self.root_key);
        put_array(part, 792, &self.root_tag);
        put_array(part, 808, &self.first);
    }
}
