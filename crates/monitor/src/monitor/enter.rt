ghost use Rattle.std.specs.Prelude.{◌≡◌};
ghost use Rattle.answer.specs.Told.{says, nothing};
ghost use Rattle.label.specs.Labels.{labelled};
ghost use Rattle.monitor.specs.View.{view};
ghost use Rattle.rules.specs.Step.{entering};

use super::Monitor;
use crate::figure::Figure;
use crate::tables::Held;
use answer::Refusal;
use formula::Party;
use label::Label;

impl Monitor {
    /// Fills an empty record with a figure that `party` enters under `label`.
    pub fn enter(
        &mut self,
        record: u64,
        party: u64,
        figure: u64,
        label: Label,
    ) -> Result<(), Refusal>
        ensures answer { says nothing result ≡ (entering (view self.old.tables) «record» party figure (labelled label)).answer }
        ensures after { view self.new.tables ≡ (entering (view self.old.tables) «record» party figure (labelled label)).state }
    {
        let party = Party::try_from(party)?;
        let place = self.tables.records.get(record)?;
        let figure = Figure::try_from(figure)?;
        if place.is_some() {
            return Err(Refusal::RecordState);
        }
        if !label.has_hand(party.alone()) {
            return Err(Refusal::NotItsHand);
        }
        self.tables
            .records
            .set(record, Some(Held { figure, label }));
        Ok(())
    }
}
