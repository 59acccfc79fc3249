// Where a reader of lines stands.

/// Whether more of a source may be asked.
#[derive(Clone, Copy, Debug, PartialEq, Eq)]
pub enum Stage {
    /// More may come.
    Open,
    /// The source has ended, and its last line was given.
    Ended,
    /// A read failed, or the budget of reads was spent.
    Failed,
}
