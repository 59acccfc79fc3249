// The definitions, computed on published examples.
ghost use Rattle.std.specs.Prelude.{◌≡◌};
ghost use Rattle.aes_gcm.specs.Vectors.{BlockSealed, CipherExample, EmptySealed};

/// The definitions of the cipher and of sealing give what the standards' examples say.
pub fn published_examples()
    ensures cipher { CipherExample }
    ensures empty { EmptySealed }
    ensures block { BlockSealed }
{}
