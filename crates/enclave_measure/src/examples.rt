//! What a layout of two pages is read and measured to, and the reads that are counted, computed. Each function is a theorem, with
//! nothing to do.
ghost use Rattle.enclave_measure.specs.Examples.{TwoPagesRead, PagePastTheEnd, OffsetRepeated, TwoPagesMeasured, ReadsCounted};

/// Its lines list it.
pub fn two_pages_are_read()
    ensures { TwoPagesRead }
{}

/// With another offset the second page is refused.
pub fn two_pages_are_refused()
    ensures past_the_end { PagePastTheEnd }
    ensures repeated { OffsetRepeated }
{}

/// The records that are measured have 5312 bytes.
pub fn two_pages_have_records()
    ensures { TwoPagesMeasured }
{}

/// The reads that are counted after the answers for two pages of files.
pub fn reads_are_counted()
    ensures { ReadsCounted }
{}
