//! Hosts for tests, which answer as they are told and promise nothing of files.
#![tactic(auto)]

mod answer;
mod counts;
mod record;
mod script;

pub use answer::Answer;
pub use script::ScriptHost;
