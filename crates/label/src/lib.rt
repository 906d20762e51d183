//! Marks, and the labels that are made of them.
#![tactic(auto)]

mod hand;
mod kind;
mod label;
mod mark;
mod sight;

pub use hand::Hand;
pub use kind::Kind;
pub use label::Label;
pub use mark::{Compare, Join, join_marks};
pub use sight::Sight;
