ghost use Rattle.std.specs.Prelude.{◌≡◌, ◌↔◌, IsTrue, Decides};
ghost use Rattle.formula.specs.Kept.{Beside, Behind};
ghost use Rattle.formula.specs.Of.{clauses_of};
ghost use Rattle.formula.specs.Keeping.{keeping, clauses_in, KeptIsReduced};

use super::Formula;

impl Formula {
    /// The formula with these clauses, where they are in kept form.
    #[tactic(auto, using(crate::proofs::Keeping::kept_is_reduced))]
    pub fn keep(list: &[u16]) -> Option<Formula>
        ensures answer { clauses_in result ≡ keeping list.now }
        ensures law { KeptIsReduced }
    {
        let mut formula = Formula::truth();
        for &clause in list {
            if formula.is_full() || !formula.admits(clause) {
                return None;
            }
            formula.push(clause);
        }
        Some(formula)
    }

    /// Tells whether the clause may stand behind those in use.
    fn admits(&self, clause: u16) -> bool
        ensures { IsTrue result ↔ Behind (clauses_of self.now) clause }
    {
        self.as_slice()
            .iter()
            .all(|&earlier| are_apart(earlier, clause))
    }
}

fn are_apart(first: u16, second: u16) -> bool
    ensures { Decides result (Beside first second) }
{
    first < second && first & second != first
}
