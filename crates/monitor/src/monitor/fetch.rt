ghost use Rattle.monitor.specs.View.{view};
ghost use Rattle.monitor.specs.Fetch.{Fetched, Sound};

use super::Monitor;
use crate::tables::Held;
use answer::Refusal;

/// An open task and a filled record.
#[derive(Clone, Copy)]
pub struct Pair {
    pub open: Held,
    pub filled: Held,
}

impl Monitor {
    /// The task and the record that a call works on.
    pub(super) fn fetch(&self, task: u64, record: u64) -> Result<Pair, Refusal>
        ensures found { Fetched (view self.now.tables) task «record» result }
        ensures sound { Sound task «record» result }
    {
        let open = self.tables.tasks.get(task)?;
        let filled = self.tables.records.get(record)?;
        Ok(Pair {
            open: open.ok_or(Refusal::TaskState)?,
            filled: filled.ok_or(Refusal::RecordState)?,
        })
    }
}
