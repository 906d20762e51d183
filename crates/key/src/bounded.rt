ghost use Rattle.key.specs.Requests.{limits};
ghost use Rattle.key.specs.Meanings.{bounded};

use crate::{Key, Mode, Request};
use answer::Denial;
use label::Label;

/// The labels between which a bounded wrap keeps a request.
#[derive(Clone, Copy)]
pub struct Bounds {
    pub high: Label,
    pub low: Label,
}

/// A wrap that keeps a request between two labels.
#[derive(Clone, Copy)]
pub struct Bounded<K> {
    pub below: K,
    pub mode: Mode,
    pub bounds: Bounds,
}

impl<K: Key> Key for Bounded<K> {
    ghost meaning = { λ k. bounded k.mode (limits k.bounds) (K.Key.meaning k.below) };

    fn ask(&self, request: &Request) -> Result<(), Denial> {
        self.below.ask(request)?;
        self.mode.admit(request.kind)?;
        let Bounds { high, low } = &self.bounds;
        if !(request.record.flows_to(high) && request.task.flows_to(high)) {
            return Err(Denial::AboveHigh);
        }
        let label = request.record.relabel(request.kind, request.new);
        if low.covered_by_two(&label, &request.task) {
            Ok(())
        } else {
            Err(Denial::BelowLow)
        }
    }
}
