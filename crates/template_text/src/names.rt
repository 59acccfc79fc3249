// Which texts are names of values.
ghost use Rattle.std.specs.Prelude.{◌≡◌, ◌↔◌, ◌==◌, IsTrue};
ghost use Rattle.std.specs.List.{list_all, slice_split};
ghost use Rattle.template_text.specs.Names.{IsValueName, IsJoined, is_name_part, is_first, is_further, POINT};

fn is_first(byte: u8) -> bool
    ensures { result ≡ is_first byte }
{
    byte.is_ascii_alphabetic() || byte == b'_'
}

fn is_further(byte: u8) -> bool
    ensures { result ≡ is_further byte }
{
    is_first(byte) || byte.is_ascii_digit()
}

fn all_further(bytes: &[u8]) -> bool
    ensures { result ≡ list_all is_further bytes.now }
{
    bytes.iter().all(|byte| is_further(*byte))
}

fn is_name_part(part: &[u8]) -> bool
    ensures { result ≡ is_name_part part.now }
{
    match part {
        [] => false,
        [first, others @ ..] => is_first(*first) && all_further(others),
    }
}

fn all_parts(name: &[u8]) -> bool
    ensures { result ≡ list_all is_name_part (slice_split (λ byte. byte == POINT) name.now) }
{
    name.split(|byte| *byte == b'.').all(is_name_part)
}

fn is_joined(name: &[u8]) -> bool
    ensures { IsTrue result ↔ IsJoined name.now }
{
    all_parts(name)
}

/// Whether the text is a name of a value: one or more parts joined by `.`, each a letter or `_` followed by letters,
/// digits and `_` (ASCII), and then optionally `()`.
pub fn is_value_name(name: &str) -> bool
    ensures { IsTrue result ↔ IsValueName name.now }
{
    let bytes = name.as_bytes();
    if is_joined(bytes) {
        return true;
    }
    let Some(front) = bytes.strip_suffix(b"()") else {
        return false;
    };
    is_joined(front)
}
