//! Laws of sums: answers decide how a summing ends.
ghost use Rattle.std.specs.Prelude.{◌≡◌, ℕ, List, Result};
ghost use Rattle.pf_io.specs.Host.{Name, Answer};
ghost use Rattle.file_sums.specs.declared.fault.SumFault.{SumFault};
ghost use Rattle.file_sums.specs.Summing.{SumEnds};

/// What a host answered of a file decides its sum, or why there is none.
pub fn sums_are_decided()
    ensures { (name : Name) (these : List Answer) (outcome other : Result (List ℕ) SumFault) → SumEnds outcome name these → SumEnds other name these → outcome ≡ other }
{}
