//! SHA-256 sums of the files of a host that a manifest trusts.
#![tactic(auto)]

mod collecting;
mod fault;
mod laws;
mod lines;
mod summing;

pub use collecting::{Sums, sum_all};
pub use fault::{AllFault, SumFault};
pub use laws::sums_are_decided;
pub use lines::sum_line;
pub use summing::sum;
