//! Files of the host that are read against one sum: their chunks are checked as they are read.
#![tactic(auto)]

mod copying;
pub mod examples;
mod fault;
mod fetching;
mod slices;
mod trusted_file;

pub use fault::{ChunkFault, TrustFault};
pub use trusted_file::TrustedFile;
