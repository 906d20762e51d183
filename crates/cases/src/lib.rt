//! Worked cases of reducing, implying, "and", "or" and of the keys, shown of the definitions. The crate
//! `trials` runs the same rows against the code.
#![tactic(auto)]

ghost use Rattle.cases.specs.Table.{Worked};
ghost use Rattle.cases.specs.Further.{Further};

/// Each row of the table holds.
pub fn cases_stand()
    ensures worked { Worked }
    ensures further { Further }
{}
