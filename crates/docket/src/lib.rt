//! The docket: a log of releases and endorsements, packed bit by bit.
#![tactic(auto)]

mod bits_left;
mod bits_packed;
mod entry;
mod part;
mod read;
mod text;
mod write;

pub use entry::{Entry, EntryBytes, Found, LONGEST};
pub use read::read_entry;
pub use write::{entry_bytes, write_entry};
