// A path as a protected file keeps it.
ghost use Rattle.std.specs.Prelude.{◌≡◌, ◌==◌, ◌≤◌, ◌↔◌, List, ℕ, length, IsSome, IfSome, IsTrue, All};
ghost use Rattle.std.specs.List.{before_first, position_or_len};
ghost use Rattle.node_layout.specs.Metadata.{IsPath, IsPathField, path_field};

use std::marker::Model;
use std::{fmt, str};

// The most bytes that a path may have.
const MAX_PATH: usize = 767;

/// A path that a protected file can be stored under: UTF-8 of 1 to 767 bytes without a zero byte.
///
/// Contracts see it as the list of its bytes.
#[derive(Drop)]
pub struct PathText {
    field: [u8; 768],
}

impl Model for PathText {
    ghost use Rattle.std.specs.Prelude.{ℕ, List, ◌==◌};
    ghost use Rattle.std.specs.List.{before_first};
    ghost use Rattle.node_layout.specs.Metadata.{IsPathField};

    ghost Value = { List ℕ };

    ghost view = { λ path. before_first (λ b. b == 0) path.field };

    ghost invariant = { λ path. IsPathField path.field };
}

impl PathText {
    /// The path of these bytes. `None` where the text is empty, is longer than 767 bytes, or has a zero byte.
    pub fn new(text: &str) -> Option<PathText>
        ensures is_path { IsSome result ↔ IsPath text.now }
        ensures same { IfSome result (λ path. path ≡ text.now) }
    {
        let bytes = text.as_bytes();
        if bytes.is_empty() || bytes.len() > MAX_PATH || bytes.contains(&0) {
            return None;
        }
        Some(PathText {
            field: padded(bytes),
        })
    }

    /// The path's bytes, without the zeros that fill its field.
    pub fn bytes(&self) -> &[u8]
        ensures same { result.now ≡ self.now }
        ensures is_path { IsPath self.now }
    {
        let count = count_to_zero(&self.field);
        &self.field[..count]
    }

    /// The path as text.
    pub fn as_str(&self) -> &str
        ensures same { result.now ≡ self.now }
        ensures is_path { IsPath self.now }
    {
        match str::from_utf8(self.bytes()) {
            Ok(text) => text,
            Err(_) => unreachable!(),
        }
    }

    // The path in its 768 bytes.
    pub(crate) fn field(&self) -> &[u8; 768]
        ensures padded { result.now ≡ path_field self.now }
        ensures is_path { IsPath self.now }
    {
        &self.field
    }

    // The path that this field holds. `None` where it holds none.
    pub(crate) fn from_field(field: &[u8; 768]) -> Option<PathText>
        ensures is_field { IsSome result ↔ IsPathField field.now }
        ensures stored { IfSome result (λ path. field.now ≡ path_field path) }
        ensures is_path { IfSome result (λ path. IsPath path) }
    {
        let count = count_to_zero(field);
        if count == 0 || count > MAX_PATH || !all_zero(&field[count..]) {
            return None;
        }
        match str::from_utf8(&field[..count]) {
            Ok(_) => Some(PathText { field: *field }),
            Err(_) => None,
        }
    }
}

impl fmt::Debug for PathText {
    fn fmt<W: fmt::Write>(&self, f: &mut fmt::Formatter<W>) -> fmt::Result {
        write!(f, "{:?}", self.as_str())
    }
}

// The bytes, filled up with zeros.
fn padded(bytes: &[u8]) -> [u8; 768]
    requires { length bytes.now ≤ 768 }
    ensures { result ≡ path_field bytes.now }
{
    let mut field = [0; 768];
    field[..bytes.len()].copy_from_slice(bytes);
    field
}

// How many bytes stand before the first zero, or how many there are where none is zero.
fn count_to_zero(bytes: &[u8]) -> usize
    ensures { result ≡ position_or_len (λ b. b == 0) bytes.now }
{
    let position = bytes.iter().position(|b| *b == 0);
    position.unwrap_or(bytes.len())
}

fn all_zero(bytes: &[u8]) -> bool
    ensures { IsTrue result ↔ All (λ b. b ≡ 0) bytes.now }
{
    bytes.iter().all(|b| *b == 0)
}
