// The state of a host in memory.
ghost use Rattle.pf_io.specs.Storage.{StoresAfter};

use crate::storage::Entry;
use crate::told::Told;
use std::alloc::Global;

/// A host in memory that is honest: it tells all its answers, its disk and the disk's past, each from a record of its calls.
#[derive(Drop)]
pub struct MemHost {
    pub(crate) alloc: Global,
    pub(crate) files: Vec<Entry>,
    pub(crate) told: Vec<Told>,
    pub(crate) failing: Vec<u64>,
    pub(crate) stop: Option<u64>,
    pub(crate) calls: u64,
    pub(crate) faults: u64,
    pub(crate) reads: u64,
    pub(crate) writes: u64,
    pub(crate) widest: usize,
    pub(crate) starved: u64,
    // What is stored is what the recorded events leave.
    ghost stores: { StoresAfter files.items told.items },
}
