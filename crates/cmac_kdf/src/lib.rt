//! CMAC over AES-128, and the key of a protected file's metadata.
#![tactic(auto)]

mod chain;
mod metadata;
mod vectors;

pub use chain::cmac;
pub use metadata::metadata_key;
