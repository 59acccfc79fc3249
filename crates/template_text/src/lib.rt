//! Templates of manifests: text with marks for values, comments and raw text.
#![tactic(auto)]

mod blanks;
pub mod examples;
mod fault;
mod laws;
mod marks;
mod names;
mod pieces;
mod rendering;
mod values;

pub use fault::RenderFault;
pub use laws::{text_has_its_outcome, text_has_its_parts};
pub use names::is_value_name;
pub use rendering::render;
