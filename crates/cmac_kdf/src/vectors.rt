// The definition, computed on published examples.
ghost use Rattle.cmac_kdf.specs.Vectors.{EmptyTagged, BlockTagged, PartTagged};

/// The definition of CMAC gives what the standard's examples say.
pub fn published_examples()
    ensures empty { EmptyTagged }
    ensures block { BlockTagged }
    ensures part { PartTagged }
{}
