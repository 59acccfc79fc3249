//! Bytes as elements of the field of FIPS 197.
ghost use Rattle.std.specs.Prelude.{◌≡◌, ℕ, ◌<◌, ◌≢◌};
ghost use Rattle.aes_gcm.specs.Field.{inverse, times};

/// The definition's inverse of a byte is its inverse in the field, and 0 at 0.
pub fn inverses_are_inverses()
    ensures product_is_one { (a : ℕ) → a < 256 → a ≢ 0 → times a (inverse a) ≡ 1 }
    ensures zero { inverse 0 ≡ 0 }
{}
