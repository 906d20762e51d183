ghost use Rattle.lines.specs.Keys.{line_meaning};

use answer::Denial;
use key::{Bounded, Key, Plain, Request, Robust};

/// The keys that a line can write.
// Four cases, as a function hands out no `dyn Key`, and each wrap holds the key below by value.
#[derive(Clone, Copy)]
pub enum LineKey {
    Plain(Plain),
    Robust(Robust<Plain>),
    Bounded(Bounded<Plain>),
    BoundedRobust(Bounded<Robust<Plain>>),
}

impl Key for LineKey {
    ghost meaning = { line_meaning };

    fn ask(&self, request: &Request) -> Result<(), Denial> {
        match self {
            LineKey::Plain(key) => key.ask(request),
            LineKey::Robust(key) => key.ask(request),
            LineKey::Bounded(key) => key.ask(request),
            LineKey::BoundedRobust(key) => key.ask(request),
        }
    }
}
