ghost use Rattle.std.specs.Prelude.{◌≡◌, ◌&&◌};
ghost use Rattle.clause.specs.Groups.{met, within};
ghost use Rattle.formula.specs.Of.{clauses_of};
ghost use Rattle.key.specs.Requests.{asked};
ghost use Rattle.key.specs.Meanings.{plain, plain_covers};

use crate::{Key, Request};
use answer::Denial;
use formula::Formula;
use label::Kind;

/// A key that holds one formula, its privilege.
#[derive(Clone, Copy)]
pub struct Plain {
    pub formula: Formula,
}

/// Tells whether every group that meets the first two meets the third.
fn together_imply(a: Formula, b: Formula, goal: Formula) -> bool
    ensures { result ≡ within (λ g. met (clauses_of a) g && met (clauses_of b) g) (met (clauses_of goal)) }
{
    a.both_imply(b, goal)
}

/// Tells whether the privilege makes up for what the request takes away.
fn privilege_covers(privilege: Formula, request: &Request) -> bool
    ensures { result ≡ plain_covers (clauses_of privilege) request.entry.now.kind (asked request.entry.now) }
{
    match request.kind {
        Kind::Release => together_imply(privilege, request.new, request.record.sight.0),
        Kind::Endorse => together_imply(privilege, request.record.hand.0, request.new),
    }
}

impl Key for Plain {
    ghost meaning = { λ k. plain (clauses_of k.formula) };

    fn ask(&self, request: &Request) -> Result<(), Denial> {
        if privilege_covers(self.formula, request) {
            Ok(())
        } else {
            Err(Denial::NotCovered)
        }
    }
}
