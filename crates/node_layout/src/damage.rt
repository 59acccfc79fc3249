/// What is wrong with a node of a protected file, or with its recovery file.
#[derive(Clone, Copy, Debug, PartialEq, Eq)]
pub enum Kind {
    /// The file ends before the node does.
    Short,
    /// The node does not open under its key and tag.
    Tag,
    /// The encrypted part of the metadata opens to no text of one.
    Text,
    /// An update is pending, and there is no whole log of it.
    Log,
}

/// A damaged node of a protected file.
#[derive(Clone, Copy, Debug, PartialEq, Eq)]
pub struct Damage {
    /// The node's place in the file.
    pub node: u64,
    /// What is wrong with it.
    pub kind: Kind,
}
