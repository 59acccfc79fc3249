//! Enclave layouts, listed as lines of text, and their measurement.
#![tactic(auto)]

mod enclave;
pub mod examples;
mod fault;
mod fields;
mod hexadecimal;
mod laws;
mod layout;
mod lines;
mod page;
mod reading;
mod records;
mod words;

pub use enclave::measure;
pub use fault::{LayoutFault, MeasureFault};
pub use laws::{absence_is_refused, answers_have_one_outcome, text_has_one_outcome};
pub use layout::Layout;
