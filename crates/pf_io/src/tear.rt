// Outcomes of a crash.

/// What a crash leaves of each file of a host in memory.
#[derive(Clone, Copy, Debug, PartialEq, Eq)]
pub enum Tear {
    /// As it was read.
    Kept,
    /// As it was at its last sync.
    Lost,
    /// As long as it was read, with this byte at each place that was written or cut off since the last sync, and past the
    /// end of then.
    Fill(u8),
}
