ghost use Rattle.std.specs.Prelude.{◌≡◌};
ghost use Rattle.answer.specs.Told.{says, figure};
ghost use Rattle.monitor.specs.View.{view};
ghost use Rattle.rules.specs.Step.{showing};

use super::Monitor;
use answer::Refusal;

impl Monitor {
    /// The figure of a record, for a group that sees it.
    pub fn show(&self, record: u64, group: u16) -> Result<u32, Refusal>
        ensures { says figure result ≡ (showing (view self.now.tables) «record» group).answer }
    {
        let held = self
            .tables
            .records
            .get(record)?
            .as_ref()
            .ok_or(Refusal::RecordState)?;
        if held.label.sees(group) {
            Ok(held.figure.cents)
        } else {
            Err(Refusal::NotSeen)
        }
    }
}
