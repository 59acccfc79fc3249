// What came of the search for a line.

/// What is next in a script.
#[derive(Clone, Copy, Debug, PartialEq, Eq)]
pub enum NextLine {
    /// A line.
    Whole,
    /// A line of more than 131,072 bytes, which was skipped.
    TooLong,
    /// No line: the script was read to its end.
    End,
}
