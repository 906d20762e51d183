ghost use Rattle.std.specs.Prelude.{◌≡◌, ◌<◌, ◌≤◌, ◌==◌, [], ◌∷◌, ◌++◌, length};
ghost use Rattle.clause.specs.Meaning.{Means};
ghost use Rattle.clause.specs.Parties.{Member, Sharing};
ghost use Rattle.formula.specs.Kept.{Behind};
ghost use Rattle.formula.specs.Of.{clauses_of};
ghost use Rattle.formula.specs.Party.{alone};

use super::Formula;
use crate::Party;

impl Formula {
    /// True: no clauses, so that every group meets it.
    pub fn truth() -> Formula
        ensures clauses { clauses_of result ≡ [] }
        ensures means { Means (clauses_of result) (λ _. Unit {0}) }
    {
        Formula {
            clauses: [0; 8],
            count: 0,
        }
    }

    /// False: the clause that names nobody, so that no group meets it.
    pub fn falsity() -> Formula
        ensures clauses { clauses_of result ≡ 0 ∷ [] }
        ensures means { Means (clauses_of result) (λ _. ⊥) }
    {
        Formula::of_clause(0)
    }

    /// The formula that the groups with this party meet.
    pub fn one_party(party: Party) -> Formula
        ensures clauses { clauses_of result ≡ alone party.number ∷ [] }
        ensures means { Means (clauses_of result) (λ group. Member party.number group) }
        ensures sharing { Sharing }
    {
        Formula::of_clause(party.alone())
    }

    /// The formula of one clause.
    pub(crate) fn of_clause(clause: u16) -> Formula
        ensures { clauses_of result ≡ clause ∷ [] }
    {
        let mut formula = Formula::truth();
        formula.push(clause);
        formula
    }

    /// Tells whether there is room for no more clauses.
    pub(super) fn is_full(&self) -> bool
        ensures { result ≡ (length (clauses_of self.now) == 8) }
    {
        self.count == self.clauses.len()
    }

    /// Adds a clause behind those in use.
    pub(super) fn push(&mut self, clause: u16)
        requires room { length (clauses_of self.old) < 8 }
        requires behind { Behind (clauses_of self.old) clause }
        ensures { clauses_of self.new ≡ clauses_of self.old ++ clause ∷ [] }
    {
        self.clauses[self.count] = clause;
        self.count += 1;
    }

    /// The clauses in use.
    pub fn as_slice(&self) -> &[u16]
        ensures is { result.now ≡ clauses_of self.now }
        ensures small { length result.now ≤ 8 }
    {
        &self.clauses[0..self.count]
    }
}
