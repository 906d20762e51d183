ghost use Rattle.std.specs.Prelude.{◌≡◌, Decides};
ghost use Rattle.clause.specs.Groups.{met};
ghost use Rattle.clause.specs.Meaning.{Implies, BothImply};
ghost use Rattle.formula.specs.Of.{clauses_of};
ghost use Rattle.formula.specs.Forms.{both, fits as fits_eight};
ghost use Rattle.label.specs.Marks.{Group, sight_touches};
ghost use Rattle.label.specs.Tests.{sight_either};

use crate::{Compare, Join};
use answer::Refusal;
use formula::Formula;

/// Who sees: the groups that meet the formula. A sight touches the groups that do not see.
#[derive(Clone, Copy)]
pub struct Sight(pub Formula);

// A rule of the project: a wrong test is refused at its own contract and not in a proof first, so each stands apart.
impl Sight {
    /// Tells whether `group` sees.
    pub(crate) fn sees(&self, group: u16) -> bool
        ensures { result ≡ met (clauses_of self.now.0) group }
    {
        self.0.meets(group)
    }

    /// Tells whether every group that sees by `other` sees by this.
    fn seen_with(&self, other: &Sight) -> bool
        ensures { Decides result (Implies (clauses_of other.now.0) (clauses_of self.now.0)) }
    {
        other.0.implies(self.0)
    }

    /// Tells whether every group that sees by `a` and by `b` sees by this.
    fn seen_with_both(&self, a: &Sight, b: &Sight) -> bool
        ensures { Decides result (BothImply (clauses_of a.now.0) (clauses_of b.now.0) (clauses_of self.now.0)) }
    {
        a.0.both_imply(b.0, self.0)
    }
}

impl Compare for Sight {
    ghost onlooker = { Group };

    ghost numbers = { λ s. clauses_of s.0 };

    ghost touches = { sight_touches };

    fn covered_by(&self, other: &Sight) -> bool {
        self.seen_with(other)
    }

    fn covered_by_two(&self, a: &Sight, b: &Sight) -> bool {
        self.seen_with_both(a, b)
    }
}

impl Join for Sight {
    ghost joined = { both };

    ghost fits = { fits_eight };

    ghost either = { sight_either };

    fn join(&self, other: &Sight, out: &mut Sight) -> Result<(), Refusal> {
        out.0 = self.0.and(other.0).map_err(|_| Refusal::LargeLabel)?;
        Ok(())
    }
}
