//! The definitions of what a crash leaves, computed on small files: what is left, and what is not. Each function is a
//! theorem, with nothing to do.
ghost use Rattle.pf_io.specs.Examples.{MiddleThere, MiddleOnlyThere, EndThere, EndOnlyThere, CutThere, CutOnlyThere, SyncedOnly, SwapThere, SwapOnlyThere, MakeOnlyThere};

/// A write in the middle leaves any bytes in its range, and nothing else.
pub fn write_in_the_middle()
    ensures there { MiddleThere }
    ensures nothing_else { MiddleOnlyThere }
{}

/// A write past the end leaves any bytes past the old end, at each length between, and nothing else.
pub fn write_past_the_end()
    ensures there { EndThere }
    ensures nothing_else { EndOnlyThere }
{}

/// A cut leaves any bytes where it cut, at each length between, and nothing else.
pub fn cut_off()
    ensures there { CutThere }
    ensures nothing_else { CutOnlyThere }
{}

/// A sync leaves what is read.
pub fn written_and_synced()
    ensures { SyncedOnly }
{}

/// A swap leaves both names as before or both as after, and takes along what is pending.
pub fn swap_over_a_file()
    ensures there { SwapThere }
    ensures nothing_else { SwapOnlyThere }
{}

/// Making a name that is there leaves its old file or an empty one.
pub fn make_over_a_file()
    ensures { MakeOnlyThere }
{}
