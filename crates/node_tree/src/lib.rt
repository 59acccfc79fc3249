//! The keyed tree of a protected file's nodes, read, changed and sealed over any host.
#![tactic(auto)]

mod change;
mod clearing;
mod copying;
pub mod examples;
mod fault;
mod flushing;
mod laws;
mod marks;
mod nodes;
mod numbers;
mod putting;
mod sealing;
mod stepping;
mod tree;

pub use fault::TreeFault;
pub use laws::{
    file_is_given, file_stands_for_one, linked_sheets_exist, next_sheet_exists, next_sheet_is_one,
    parts_are_one, reads_are_decided, small_sheets_have_one_node, standing_file_is_read,
    steps_stay_backed, unforged_is_given,
};
pub use stepping::resized_range;
pub use tree::Tree;
