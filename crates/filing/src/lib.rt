//! What a line leaves in the docket.
#![tactic(auto)]

mod entry;
mod filed;

pub use filed::{Filed, file_line};
