//! Keys: what decides whether a release or an endorsement may happen.
#![tactic(auto)]

mod bounded;
mod key;
mod laws;
mod mode;
mod plain;
mod request;
mod robust;

pub use bounded::{Bounded, Bounds};
pub use key::Key;
pub use laws::key_laws;
pub use mode::Mode;
pub use plain::Plain;
pub use request::Request;
pub use robust::Robust;
