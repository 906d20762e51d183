//! The words of a call line. A word is a part of the line: nothing is copied.
#![tactic(auto)]

mod clauses;
mod decimal;
mod hex;
mod mode;
mod parting;

pub use clauses::{ClausesWord, FormulaWord, formula_word, read_formula};
pub use decimal::number;
pub use hex::hex_four;
pub use mode::mode_word;
pub use parting::cut;
