ghost use Rattle.std.specs.Prelude.{◌≡◌, not, ◌&&◌, ◌||◌};
ghost use Rattle.clause.specs.Groups.{met, lowest};
ghost use Rattle.key.specs.Requests.{asked};
ghost use Rattle.key.specs.Meanings.{robust, steers};

use crate::{Key, Mode, Request};
use answer::Denial;
use label::Kind;
use lowest::{earlier, lowest_missing};

/// A wrap that lets in nobody who has a hand in what is released or in the task, and takes no hand
/// off that the task has too.
#[derive(Clone, Copy)]
pub struct Robust<K> {
    pub below: K,
    pub mode: Mode,
}

/// The lowest-numbered group that sees by `new`, does not by `old`, and meets one of the hands.
fn lowest_gaining(old: &[u16], new: &[u16], record: &[u16], task: &[u16]) -> Option<u16>
    ensures { result ≡ lowest (λ g. (met new.now g && not (met old.now g)) && (met «record».now g || met task.now g)) }
{
    let by_task = lowest_missing(old, new, task);
    let by_record = lowest_missing(old, new, record);
    earlier(by_task, by_record)
}

/// The lowest-numbered group that could have steered the request to its own gain.
fn lowest_steering(request: &Request) -> Option<u16>
    ensures { result ≡ lowest (steers (asked request.entry.now)) }
{
    let old = request.record.sight.0.as_slice();
    let new = request.new.as_slice();
    let record = request.record.hand.0.as_slice();
    let task = request.task.hand.0.as_slice();
    match request.kind {
        Kind::Release => lowest_gaining(old, new, record, task),
        Kind::Endorse => lowest_missing(new, task, record),
    }
}

impl<K: Key> Key for Robust<K> {
    ghost meaning = { λ k. robust k.mode (K.Key.meaning k.below) };

    fn ask(&self, request: &Request) -> Result<(), Denial> {
        self.below.ask(request)?;
        self.mode.admit(request.kind)?;
        match lowest_steering(request) {
            None => Ok(()),
            Some(group) => Err(Denial::Steered(group)),
        }
    }
}
