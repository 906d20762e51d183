/// An entry of the docket, as C has it.
// C has neither enums with values nor slices: so numbers, and an array with a count.
#[repr(C)]
#[derive(Clone, Copy)]
pub struct YardEntry {
    /// 0 for a release, 1 for an endorsement.
    pub kind: u32,
    /// The question that refused the call; 0 where it was granted.
    pub question: u32,
    pub task: u64,
    pub record: u64,
    /// The place of the next entry.
    pub next: u64,
    /// The group that question 16 brings, else 0.
    pub group: u16,
    /// How many clauses the new formula has.
    pub count: u16,
    /// Its clauses, and 0 in the places behind them.
    pub clauses: [u16; 8],
}
