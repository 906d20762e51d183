ghost use Rattle.std.specs.Prelude.{◌≡◌, Decides};
ghost use Rattle.std.specs.Cmp.{on_equiv, on_per, partial_equiv_from_equiv};
ghost use Rattle.std.specs.Cmp.Lexicographic.{pointwise, nat_list_eq_equiv};
ghost use Rattle.std.specs.Bool.{nat_eq};
ghost use Rattle.std.specs.Ordering.{on};
ghost use Rattle.clause.specs.Meaning.{Alike};
ghost use Rattle.formula.specs.Of.{clauses_of};
ghost use Rattle.formula.specs.Equal.{EqualityIsMeaning};

use super::Formula;

impl Formula {
    /// Tells whether the two have the same clauses.
    fn same_clauses(&self, other: &Formula) -> bool
        ensures { result ≡ pointwise nat_eq (clauses_of self.now) (clauses_of other.now) }
    {
        self.clauses[..self.count] == other.clauses[..other.count]
    }
}

// Kept forms have the same clauses exactly when the same groups meet them. By hand, as a derived `==` says nothing of
// groups where it is called.
impl PartialEq for Formula {
    ghost eq = { on clauses_of (pointwise nat_eq) };

    ghost laws = { on_per clauses_of (partial_equiv_from_equiv nat_list_eq_equiv) };

    #[tactic(auto, using(crate::proofs::Equality::clauses_decide, crate::proofs::Equality::meaning_decides))]
    fn eq(&self, other: &Formula) -> bool
        ensures answer { result ≡ pointwise nat_eq (clauses_of self.now) (clauses_of other.now) }
        ensures clauses { Decides result (clauses_of self.now ≡ clauses_of other.now) }
        ensures means { Decides result (Alike (clauses_of self.now) (clauses_of other.now)) }
    {
        self.same_clauses(other)
    }
}

impl Eq for Formula {
    ghost laws = { on_equiv clauses_of nat_list_eq_equiv };
}

/// What `==` and `!=` tell of two formulas. A caller of `!=`, whose contract is the library's, learns it here.
#[tactic(auto, using(crate::proofs::Equality::equality_is_meaning))]
pub fn equality_is_meaning()
    ensures { EqualityIsMeaning ⟦<Formula as PartialEq>⟧.eq }
{}
