//! Formulas in their kept form, and the sixteen parties.
#![tactic(auto)]

mod kept;
mod party;

pub use kept::{Formula, LONGEST, equality_is_meaning};
pub use party::Party;
