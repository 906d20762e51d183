//! The yard label monitor: it keeps figures under labels, and rules on every use of them.
#![tactic(auto)]

mod figure;
mod monitor;
mod tables;

pub use monitor::Monitor;
pub use tables::figures_are_bounded;
