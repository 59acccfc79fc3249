// Hexadecimal numbers in texts.
ghost use Rattle.std.specs.Prelude.{◌≡◌, ◌<◌, ◌≤◌, ◌↔◌, ℕ, true, IsTrue, MatchOption, length, get_or};
ghost use Rattle.std.specs.List.{list_all};
ghost use Rattle.enclave_measure.specs.Hexadecimal.{is_hex_digit, digit_value, hex_value, AreHexDigits, IsHex};

const MOST_DIGITS: usize = 16;

#[tactic(auto, unfolding(crate::specs::Hexadecimal::is_hex_digit))]
fn is_hex_digit(byte: u8) -> bool
    ensures { result ≡ is_hex_digit byte }
{
    byte.is_ascii_digit() || (97 <= byte && byte <= 102)
}

#[tactic(auto, unfolding(crate::specs::Hexadecimal::is_hex_digit, crate::specs::Hexadecimal::digit_value))]
fn digit_value(byte: u8) -> u8
    requires { is_hex_digit byte ≡ true }
    ensures value { result ≡ digit_value byte }
    ensures small { result < 16 }
{
    if byte.is_ascii_digit() {
        byte - b'0'
    } else {
        byte - b'a' + 10
    }
}

// Some digits, and a `0` first only alone.
fn is_plain(text: &[u8]) -> bool
    ensures { IsTrue result ↔ ((1 ≤ length text.now) × (get_or text.now 0 0 ≡ 48 → length text.now ≡ 1)) }
{
    match text {
        [] => false,
        [b'0', rest @ ..] => rest.is_empty(),
        _ => true,
    }
}

fn all_hex_digits(text: &[u8]) -> bool
    ensures { result ≡ list_all is_hex_digit text.now }
{
    text.iter().all(|byte| is_hex_digit(*byte))
}

fn are_hex_digits(text: &[u8]) -> bool
    ensures { IsTrue result ↔ AreHexDigits text.now }
{
    is_plain(text) && text.len() <= MOST_DIGITS && all_hex_digits(text)
}

// The number of hexadecimal digits.
fn hex_value(digits: &[u8]) -> u64
    requires { AreHexDigits digits.now }
    ensures { result ≡ hex_value digits.now }
{
    let mut number = 0;
    for digit in digits {
        number = 16 * number + digit_value(*digit) as u64;
    }
    number
}

/// The number that `0x` and 1 to 16 lower-case hexadecimal digits spell, without a leading zero unless it is the only
/// digit. `None` where the text is none.
pub(crate) fn read_hex(text: &[u8]) -> Option<u64>
    ensures { MatchOption result ((number : ℕ) → ¬ (IsHex text.now number)) (IsHex text.now) }
{
    let digits = text.strip_prefix(b"0x")?;
    if !are_hex_digits(digits) {
        return None;
    }
    Some(hex_value(digits))
}
