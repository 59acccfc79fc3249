// A record of the events of a host in memory, from which it tells its answers and its disk.

#[derive(Drop)]
pub(crate) enum Told {
    Length(Vec<u8>, Option<u64>),
    Given(Vec<u8>, u64, usize, Vec<u8>),
    Write(Vec<u8>, u64, Vec<u8>),
    Cut(Vec<u8>, u64),
    Sync(Vec<u8>),
    Make(Vec<u8>),
    Swap(Vec<u8>, Vec<u8>),
    Remove(Vec<u8>),
    // A file that was put, which is no call.
    Place(Vec<u8>, Vec<u8>),
}
