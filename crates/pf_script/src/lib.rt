//! The script of a session: its lines, read from any source, the replies to them, and the book that says what a crash leaves
//! of the names that it changes.
#![tactic(auto)]

mod buffer;
mod changing;
mod command;
mod desk;
mod fault;
mod fields;
mod laws;
mod line;
mod line_reader;
mod looking;
mod next_line;
mod opening;
mod printing;
mod reading;
mod renaming;
mod reply;
mod sealing;
mod stage;
mod words;

pub use desk::Desk;
pub use fault::LineFault;
pub use laws::{
    definitions_on_examples, scripts_have_one_run, steps_keep_the_book, text_has_one_reading,
    what_unfolds_holds_in_the_end,
};
pub use line::ScriptLine;
pub use line_reader::LineReader;
pub use next_line::NextLine;
pub use printing::write_reply;
pub use reading::read_line;
pub use reply::{Reply, Why};
pub use stage::Stage;
