use answer::Refusal;
use arrayvec::ArrayVec;
use formula::Formula;
use label::Kind;

/// One decision: what was asked of which task and record, and what the call was answered.
#[derive(Clone, Copy)]
pub struct Entry {
    pub kind: Kind,
    pub task: u64,
    pub record: u64,
    pub answer: Result<(), Refusal>,
    /// The formula that was to replace the record's.
    pub new: Formula,
}

/// An entry that was found, and the place of the next.
#[derive(Clone, Copy)]
pub struct Found {
    pub entry: Entry,
    pub next: u64,
}

/// How many bytes the longest entry has.
pub const LONGEST: usize = 21;

/// An entry as it stands in the docket.
pub type EntryBytes = ArrayVec<u8, LONGEST>;
