// Calls of a host by their words.
use pf_io::{Host, read_number};
use std::alloc::{AllocError, Global};

// What the buffer of a read has before.
const BEFORE: u8 = 9;

/// The answer to words that name no call.
pub const NO_CALL: &str = "no call";

// Reads into `count` bytes, and answers with their digits where the read did not fail.
fn read<H: Host>(
    alloc: Global,
    host: &mut H,
    name: &str,
    at: u64,
    count: u64,
) -> Result<String, AllocError> {
    let mut buffer = vec![in alloc; BEFORE; count as usize]?;
    let outcome = host.read_at(name, at, &mut buffer);
    if outcome.is_err() {
        return format!(in alloc; "{outcome:?}");
    }
    let digits = hex::encode(alloc, &buffer)?;
    format!(in alloc; "{outcome:?} {}", digits.as_str())
}

/// Makes the call that the words name, and answers its answer as text, or `no call` where they name none.
///
/// # Errors
///
/// There was no memory; then the call may have been made.
pub fn answer<H: Host>(alloc: Global, host: &mut H, words: &[&str]) -> Result<String, AllocError> {
    let number = |place: usize| read_number(words.get(place)?.as_bytes());
    match (words, number(2), number(3)) {
        (["len", name], _, _) => format!(in alloc; "{:?}", host.len(name)),
        (["read", name, _, _], Some(at), Some(count)) => read(alloc, host, name, at, count),
        (["write", name, _, text], Some(at), _) => {
            format!(in alloc; "{:?}", host.write_at(name, at, text.as_bytes()))
        }
        (["cut", name, _], Some(len), _) => format!(in alloc; "{:?}", host.cut(name, len)),
        (["sync", name], _, _) => format!(in alloc; "{:?}", host.sync(name)),
        (["make", name], _, _) => format!(in alloc; "{:?}", host.make(name)),
        (["swap", from, to], _, _) => format!(in alloc; "{:?}", host.swap_name(from, to)),
        (["remove", name], _, _) => format!(in alloc; "{:?}", host.remove(name)),
        _ => String::from_str(alloc, NO_CALL),
    }
}
