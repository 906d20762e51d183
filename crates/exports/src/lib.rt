//! What a C program calls: the comparison of two formulas, and the docket's reader.
#![tactic(auto)]

mod compare;
mod entry;
mod read;

pub use compare::yard_compare;
pub use entry::YardEntry;
pub use read::yard_read_entry;
