//! What the calls do, on plain records and tasks, and what holds of every run of them. There is nothing
//! to run here: the functions bear theorems, and the monitor's calls are proved to follow the rules.
#![tactic(auto)]

ghost use Rattle.rules.specs.Laws.{StepLaws};
ghost use Rattle.rules.specs.Promise.{Promise};
ghost use Rattle.rules.specs.Tracking.{MarkTracks};

use label::{Hand, Join, Sight};

/// Figures are tracked for every onlooker of every mark, by what its implementation shows.
pub fn mark_is_tracked<M: Join>()
    ensures { MarkTracks M.Join.joined M.Compare.touches }
{}

/// The promise of the monitor, from the tracking of its two marks.
pub fn promise()
    ensures { Promise }
{
    mark_is_tracked::<Sight>();
    mark_is_tracked::<Hand>();
}

/// What every call does and does not do.
pub fn step_laws()
    ensures { StepLaws }
{}
