//! Worked histories: runs of calls and of lines with their answers, the docket's bytes, what C is given, and the
//! words of the promise at concrete runs, shown of the definitions.
#![tactic(auto)]

ghost use Rattle.histories.specs.Table.{Worked};

/// Each row of the table holds.
pub fn histories_stand()
    ensures { Worked }
{}
