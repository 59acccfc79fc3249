//! Tests of pf_session and pf_script. They stand apart, so that each crate is proved once.
#![tactic(auto)]

#[cfg(test)]
mod creating_tests;
#[cfg(test)]
mod desk_tests;
#[cfg(test)]
mod fixtures;
#[cfg(test)]
mod flushing_tests;
#[cfg(test)]
mod moving_tests;
#[cfg(test)]
mod reply_tests;
