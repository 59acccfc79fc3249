// The answers of a script.
use pf_io::Bytes;

/// What a host that answers by a script says to one call.
#[derive(Drop)]
pub enum Answer {
    /// To `len`: the length, or `None` for an absent name.
    Len(Option<u64>),
    /// To `read_at`: these bytes, as many as there is room for.
    Given(Bytes),
    /// To a call that changes: it is done.
    Done,
    /// To any call: a fault.
    Fail,
}
