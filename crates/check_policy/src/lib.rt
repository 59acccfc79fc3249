//! Where a path of a manifest leads, and what the manifest says of a file.
#![tactic(auto)]

pub mod examples;
mod laws;
mod place;
mod resolving;
mod seeking;
mod verdict;

pub use laws::{
    listed_sums_decide, mounts_with_a_root_serve, normal_forms_decide, paths_have_one_outcome,
    uris_have_one_verdict, verdicts_come_by_cases,
};
pub use place::{Place, ResolveFault};
pub use resolving::{normal, resolve};
pub use verdict::{Verdict, decide};
