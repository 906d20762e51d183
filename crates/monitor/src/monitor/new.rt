ghost use Rattle.std.specs.Prelude.{◌≡◌};
ghost use Rattle.rules.specs.Promise.{Promise};
ghost use Rattle.rules.specs.State.{blank};
ghost use Rattle.monitor.specs.View.{view};

use super::Monitor;
use crate::tables::Tables;

impl Monitor {
    /// A monitor whose records are all empty and whose tasks are all closed. What is promised of every
    /// list of calls on it is part of its contract.
    pub fn new() -> Monitor
        ensures fresh { view result.tables ≡ blank }
        ensures promise { Promise }
    {
        rules::promise();
        Monitor {
            tables: Tables::new(),
        }
    }
}
