ghost use Rattle.std.specs.Prelude.{Decides};
ghost use Rattle.clause.specs.Meaning.{Meets, Implies, BothImply, ImpliesEither};
ghost use Rattle.formula.specs.Of.{clauses_of};

use super::Formula;

// The fields are cut here: behind `as_slice` a wrong argument would be refused in a proof first, not at its contract.
impl Formula {
    /// Tells whether `group` shares a party with each clause.
    pub fn meets(self, group: u16) -> bool
        ensures { Decides result (Meets (clauses_of self) group) }
    {
        clause::meets(&self.clauses[..self.count], group)
    }

    /// Tells whether every group that meets this formula meets `other`.
    pub fn implies(self, other: Formula) -> bool
        ensures { Decides result (Implies (clauses_of self) (clauses_of other)) }
    {
        clause::implies(&self.clauses[..self.count], &other.clauses[..other.count])
    }

    /// Tells whether every group that meets this formula and `other` meets `goal`.
    pub fn both_imply(self, other: Formula, goal: Formula) -> bool
        ensures { Decides result (BothImply (clauses_of self) (clauses_of other) (clauses_of goal)) }
    {
        clause::both_imply(
            &self.clauses[..self.count],
            &other.clauses[..other.count],
            &goal.clauses[..goal.count],
        )
    }

    /// Tells whether every group that meets this formula meets `a` or `b`.
    pub fn implies_either(self, a: Formula, b: Formula) -> bool
        ensures { Decides result (ImpliesEither (clauses_of self) (clauses_of a) (clauses_of b)) }
    {
        clause::implies_either(
            &self.clauses[..self.count],
            &a.clauses[..a.count],
            &b.clauses[..b.count],
        )
    }
}
