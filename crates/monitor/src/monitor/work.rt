ghost use Rattle.std.specs.Prelude.{◌≡◌};
ghost use Rattle.answer.specs.Told.{says, nothing};
ghost use Rattle.monitor.specs.View.{view};
ghost use Rattle.rules.specs.Step.{taking, putting, dropping};

use super::Monitor;
use super::fetch::Pair;
use super::manner::Manner;
use crate::tables::Held;
use answer::Refusal;

impl Monitor {
    /// Joins the record's label into the task's, and works its figure into the task's.
    // The manner comes as a number: a narrower type would ask more of callers, and its question is the last but one.
    pub fn take(&mut self, task: u64, record: u64, manner: u64) -> Result<(), Refusal>
        ensures answer { says nothing result ≡ (taking (view self.old.tables) task «record» manner).answer }
        ensures after { view self.new.tables ≡ (taking (view self.old.tables) task «record» manner).state }
    {
        let pair = self.fetch(task, record)?;
        let manner = Manner::try_from(manner)?;
        let figure = manner.reckon(pair.open.figure, pair.filled.figure);
        let label = pair.open.label.join(&pair.filled.label)?;
        self.tables.tasks.set(task, Some(Held { figure, label }));
        Ok(())
    }

    /// Gives the record the task's figure; the record's label stays.
    pub fn put(&mut self, task: u64, record: u64) -> Result<(), Refusal>
        ensures answer { says nothing result ≡ (putting (view self.old.tables) task «record»).answer }
        ensures after { view self.new.tables ≡ (putting (view self.old.tables) task «record»).state }
    {
        let pair = self.fetch(task, record)?;
        if !pair.open.label.flows_to(&pair.filled.label) {
            return Err(Refusal::NoFlow);
        }
        let filled = Held {
            figure: pair.open.figure,
            ..pair.filled
        };
        self.tables.records.set(record, Some(filled));
        Ok(())
    }

    /// Empties the record.
    pub fn drop(&mut self, task: u64, record: u64) -> Result<(), Refusal>
        ensures answer { says nothing result ≡ (dropping (view self.old.tables) task «record»).answer }
        ensures after { view self.new.tables ≡ (dropping (view self.old.tables) task «record»).state }
    {
        let Pair { open, filled } = self.fetch(task, record)?;
        if !open.label.flows_to(&filled.label) {
            return Err(Refusal::NoFlow);
        }
        self.tables.records.set(record, None);
        Ok(())
    }
}
