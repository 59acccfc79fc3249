//! Tests of the crates below pf_session, of those of plain files, and of the host of pf_fakes, but for what the built program is tried with.
//! They stand apart, so that each crate is proved once.
#![tactic(auto)]

#[cfg(test)]
mod block_tests;
#[cfg(test)]
mod calls;
#[cfg(test)]
mod chunk_tests;
#[cfg(test)]
mod cmac_tests;
#[cfg(test)]
mod crash_tests;
#[cfg(test)]
mod edit_tests;
#[cfg(test)]
mod form_tests;
#[cfg(test)]
mod gcm_tests;
#[cfg(test)]
mod manifests;
#[cfg(test)]
mod metadata_tests;
#[cfg(test)]
mod model_tests;
#[cfg(test)]
mod places_tests;
#[cfg(test)]
mod plain_tests;
#[cfg(test)]
mod policy_tests;
#[cfg(test)]
mod sum_tests;
#[cfg(test)]
mod tree_tests;
