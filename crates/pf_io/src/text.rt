// Owned text and owned bytes.
ghost use Rattle.std.specs.Prelude.{◌≡◌, ◌++◌, IfOk, replicate, string_bytes};

use crate::Memory;
use std::alloc::Global;
use std::marker::Model;

/// An owned text, which contracts see as its bytes.
#[derive(Debug, Drop)]
pub struct Text {
    text: String,
}

impl Model for Text {
    ghost use Rattle.std.specs.Prelude.{List, ℕ, string_bytes};

    ghost Value = { List ℕ };

    ghost view = { λ t. string_bytes t.text };
}

impl Text {
    /// A copy of a text.
    pub fn copy(alloc: Global, text: &str) -> Result<Text, Memory>
        ensures { IfOk result (λ made. made ≡ text.now) }
    {
        let text = String::from_str(alloc, text)?;
        Ok(Text { text })
    }

    /// One text and then another.
    pub fn joined(alloc: Global, first: &str, second: &str) -> Result<Text, Memory>
        ensures { IfOk result (λ made. made ≡ first.now ++ second.now) }
    {
        let mut text = String::from_str(alloc, first)?;
        text.push_str(second)?;
        Ok(Text { text })
    }

    /// The text.
    pub fn as_str(&self) -> &str
        ensures { result.now ≡ self.now }
    {
        self.text.as_str()
    }
}

/// The text, without a copy.
impl From<String> for Text {
    ghost from_gives = { λ text made. made ≡ string_bytes text };

    fn from(text: String) -> Self {
        Text { text }
    }
}

/// The text, without a copy.
impl From<Text> for String {
    ghost from_gives = { λ text made. string_bytes made ≡ text };

    fn from(text: Text) -> Self {
        text.text
    }
}

/// Owned bytes, which contracts see as their list.
#[derive(Drop)]
pub struct Bytes {
    bytes: Vec<u8>,
}

impl Model for Bytes {
    ghost use Rattle.std.specs.Prelude.{List, ℕ};

    ghost Value = { List ℕ };

    ghost view = { λ b. b.bytes.items };
}

impl Bytes {
    ghost use Rattle.std.specs.Borrow.{sem};
    ghost use Rattle.pf_io.specs.Lending.{LendsBytes};

    /// A copy of bytes.
    pub fn copy(alloc: Global, bytes: &[u8]) -> Result<Bytes, Memory>
        ensures { IfOk result (λ made. made ≡ bytes.now) }
    {
        let bytes = bytes.to_vec(alloc)?;
        Ok(Bytes { bytes })
    }

    /// So many zero bytes.
    pub fn zeroed(alloc: Global, len: usize) -> Result<Bytes, Memory>
        ensures { IfOk result (λ made. made ≡ replicate len 0) }
    {
        let mut bytes = Vec::new(alloc);
        bytes.resize(len, 0)?;
        Ok(Bytes { bytes })
    }

    /// The bytes.
    pub fn as_slice(&self) -> &[u8]
        ensures { result.now ≡ self.now }
    {
        self.bytes.as_slice()
    }

    /// The bytes, to change them in place.
    pub fn as_mut_slice(&mut self) -> &mut [u8]
        ensures* writes_back { sem 𝓛 (LendsBytes self.entry result) }
        ensures value { result.now ≡ self.old }
    {
        self.bytes.as_mut_slice()
    }
}

/// The bytes, without a copy.
impl From<Vec<u8>> for Bytes {
    ghost from_gives = { λ bytes made. made ≡ bytes.items };

    fn from(bytes: Vec<u8>) -> Self {
        Bytes { bytes }
    }
}

/// The bytes, without a copy.
impl From<Bytes> for Vec<u8> {
    ghost from_gives = { λ bytes made. made.items ≡ bytes };

    fn from(bytes: Bytes) -> Self {
        bytes.bytes
    }
}
