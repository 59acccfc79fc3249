//! Steps on contents and the nodes that they touch, computed. Each function is a theorem, with nothing to do.
ghost use Rattle.node_tree.specs.Examples.{LastByteTouched, RangesTouched, ShrinkConcerns, StepsApplied, TwoWritten};

/// A write of the last of 396,289 bytes touches nodes 1, 98 and 99.
pub fn last_byte_is_touched()
    ensures { LastByteTouched }
{}

/// The bytes from 3000 up to 3100 touch nodes 1 and 2, and no byte touches none.
pub fn ranges_are_touched()
    ensures { RangesTouched }
{}

/// A shrink from 5000 bytes to 100 concerns those up to byte 3072.
pub fn shrink_concerns_first_bytes()
    ensures { ShrinkConcerns }
{}

/// A write inside, a write over the end, a cut and a growth.
pub fn steps_are_applied()
    ensures { StepsApplied }
{}

/// Of two nodes the second is written first.
pub fn two_are_written()
    ensures { TwoWritten }
{}
