ghost use Rattle.std.specs.Prelude.{◌≡◌};
ghost use Rattle.answer.specs.Told.{says, nothing};
ghost use Rattle.label.specs.Labels.{labelled};
ghost use Rattle.monitor.specs.View.{view};
ghost use Rattle.rules.specs.Step.{opening, closing, opener};

use super::Monitor;
use crate::figure::Figure;
use crate::tables::Held;
use answer::Refusal;
use formula::{Formula, Party};
use label::{Hand, Label, Sight};

/// The label of a task as it is opened: everybody sees it, and the opener has a hand in it.
fn opener_label(party: Party) -> Label
    ensures { labelled result ≡ opener party.number }
{
    Label {
        sight: Sight(Formula::truth()),
        hand: Hand(Formula::one_party(party)),
    }
}

impl Monitor {
    /// Opens a closed task for `party`, with figure 0.
    pub fn open(&mut self, task: u64, party: u64) -> Result<(), Refusal>
        ensures answer { says nothing result ≡ (opening (view self.old.tables) task party).answer }
        ensures after { view self.new.tables ≡ (opening (view self.old.tables) task party).state }
    {
        let party = Party::try_from(party)?;
        if self.tables.tasks.get(task)?.is_some() {
            return Err(Refusal::TaskState);
        }
        let held = Held {
            figure: Figure { cents: 0 },
            label: opener_label(party),
        };
        self.tables.tasks.set(task, Some(held));
        Ok(())
    }

    /// Closes an open task.
    pub fn close(&mut self, task: u64) -> Result<(), Refusal>
        ensures answer { says nothing result ≡ (closing (view self.old.tables) task).answer }
        ensures after { view self.new.tables ≡ (closing (view self.old.tables) task).state }
    {
        self.tables.tasks.get(task)?.ok_or(Refusal::TaskState)?;
        self.tables.tasks.set(task, None);
        Ok(())
    }
}
