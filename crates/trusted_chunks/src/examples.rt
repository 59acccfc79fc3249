//! The definitions, computed on small examples. Each function is a theorem, with nothing to do.
ghost use Rattle.trusted_chunks.specs.Examples.{CountsAre, TouchedAre, KeptAre};

/// How many chunks files of some lengths have.
pub fn chunk_counts()
    ensures { CountsAre }
{}

/// Which chunks some reads touch.
pub fn touched_chunks()
    ensures { TouchedAre }
{}

/// Which chunks are kept after a read, and in what order.
pub fn kept_chunks()
    ensures { KeptAre }
{}
