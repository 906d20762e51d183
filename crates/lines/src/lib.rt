//! Call lines: what a line says, and what the monitor answers to it.
#![tactic(auto)]

mod answering;
mod call;
mod forms;
mod line_key;
mod reading;
mod words_left;

pub use answering::obey;
pub use call::Call;
pub use forms::parse;
