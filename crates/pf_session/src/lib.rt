//! Sessions on protected files: a file is opened or created under a key, read, changed, and sealed as a new version that
//! takes the place of the last one at once.
#![tactic(auto)]

mod changing;
mod copying;
mod creating;
mod drawing;
mod ending;
mod fault;
mod file_name;
mod flushing;
mod laws;
mod moving;
mod node_zero;
mod open_fault;
mod opening;
mod reading;
mod sealing;
mod session;

pub use fault::{BesideFault, CreateFault, FlushFault, MoveFault, SizeFault, WriteFault, Written};
pub use laws::openings_are_decided;
pub use open_fault::OpenFault;
pub use session::Session;
