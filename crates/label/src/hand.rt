ghost use Rattle.std.specs.Prelude.{◌≡◌, Decides};
ghost use Rattle.clause.specs.Groups.{met};
ghost use Rattle.clause.specs.Meaning.{Implies, ImpliesEither};
ghost use Rattle.formula.specs.Of.{clauses_of};
ghost use Rattle.formula.specs.Forms.{either as either_of, fits as fits_eight};
ghost use Rattle.label.specs.Marks.{Group, hand_touches};
ghost use Rattle.label.specs.Tests.{hand_either};

use crate::{Compare, Join};
use answer::Refusal;
use formula::Formula;

/// Who has a hand: the groups that meet the formula, and may have moved the figure. A hand touches
/// the groups that have one.
#[derive(Clone, Copy)]
pub struct Hand(pub Formula);

// A rule of the project: a wrong test is refused at its own contract and not in a proof first, so each stands apart.
impl Hand {
    /// Tells whether `group` has a hand.
    pub(crate) fn has(&self, group: u16) -> bool
        ensures { result ≡ met (clauses_of self.now.0) group }
    {
        self.0.meets(group)
    }

    /// Tells whether every group with a hand by this has one by `other`.
    fn kept_by(&self, other: &Hand) -> bool
        ensures { Decides result (Implies (clauses_of self.now.0) (clauses_of other.now.0)) }
    {
        self.0.implies(other.0)
    }

    /// Tells whether every group with a hand by this has one by `a` or by `b`.
    fn kept_by_either(&self, a: &Hand, b: &Hand) -> bool
        ensures { Decides result (ImpliesEither (clauses_of self.now.0) (clauses_of a.now.0) (clauses_of b.now.0)) }
    {
        self.0.implies_either(a.0, b.0)
    }
}

impl Compare for Hand {
    ghost onlooker = { Group };

    ghost numbers = { λ h. clauses_of h.0 };

    ghost touches = { hand_touches };

    fn covered_by(&self, other: &Hand) -> bool {
        self.kept_by(other)
    }

    fn covered_by_two(&self, a: &Hand, b: &Hand) -> bool {
        self.kept_by_either(a, b)
    }
}

impl Join for Hand {
    ghost joined = { either_of };

    ghost fits = { fits_eight };

    ghost either = { hand_either };

    fn join(&self, other: &Hand, out: &mut Hand) -> Result<(), Refusal> {
        out.0 = self.0.or(other.0).map_err(|_| Refusal::LargeLabel)?;
        Ok(())
    }
}
