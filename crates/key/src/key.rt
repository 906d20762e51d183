ghost use Rattle.std.specs.Prelude.{◌≡◌};
ghost use Rattle.key.specs.Requests.{asked};
ghost use Rattle.key.specs.Meanings.{Meaning};

use crate::Request;
use answer::Denial;

/// A key. Its meaning is its answer to each possible request.
pub trait Key {
    ghost meaning: { Self → Meaning };

    /// Grants the request or denies it: always the same answer, with nothing altered.
    fn ask(&self, request: &Request) -> Result<(), Denial>
        ensures { result ≡ meaning self.now (asked request.entry.now) };
}
