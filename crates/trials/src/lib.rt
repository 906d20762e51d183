//! The worked cases run against the code, and a key that is implemented elsewhere.
#![tactic(auto)]

mod keys;
#[cfg(test)]
mod tests;

pub use keys::FewClauses;
