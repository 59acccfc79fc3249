// Numbers in texts.
ghost use Rattle.std.specs.Prelude.{◌≡◌, ◌≢◌, ◌↔◌, ℕ, Some, IsTrue, get_or, length};
ghost use Rattle.pf_io.specs.Numbers.{Spells};

// No sign stands first, and a `0` only alone.
fn is_plain(text: &[u8]) -> bool
    ensures { IsTrue result ↔ ((get_or text.now 0 0 ≢ 43) × (get_or text.now 0 0 ≡ 48 → length text.now ≡ 1)) }
{
    match text {
        [b'+', ..] => false,
        [b'0', rest @ ..] => rest.is_empty(),
        _ => true,
    }
}

/// The number that the bytes spell: `0`, or a digit 1 to 9 followed by digits, at most 2^64 - 1. `None` where they
/// spell none.
pub fn read_number(text: &[u8]) -> Option<u64>
    ensures number { (number : ℕ) → (result ≡ Some number) ↔ Spells text.now number }
{
    if !is_plain(text) {
        return None;
    }
    match str::from_utf8(text) {
        Ok(text) => text.parse::<u64>().ok(),
        Err(_) => None,
    }
}
