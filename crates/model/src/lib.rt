//! The label model, stated of the definitions that the monitor's contracts cite. There is nothing to
//! run here: the functions bear theorems.
#![tactic(auto)]

ghost use Rattle.model.specs.Lattice.{Lattice};
ghost use Rattle.model.specs.Privileges.{PlainIsFlow, BoundedByJoins, Stacking, RobustTwice};
ghost use Rattle.model.specs.Attackers.{AttackersAreGroups, ChecksExact, Weakened, WeakenedExists};

/// Labels are a lattice: sights ordered by reverse implication, hands by implication.
pub fn labels_are_a_lattice()
    ensures { Lattice }
{}

/// What the keys test is what privileges mean.
pub fn keys_are_privileges()
    ensures plain { PlainIsFlow }
    ensures bounded { BoundedByJoins }
    ensures stacking { Stacking }
    ensures twice { RobustTwice }
{}

/// Robustness against all attacker formulas is what a robust wrap tests.
pub fn robust_against_all_attackers()
    ensures groups { AttackersAreGroups }
    ensures checks { ChecksExact }
    ensures weakened { Weakened }
    ensures exists { WeakenedExists }
{}
