ghost use Rattle.std.specs.Prelude.{◌≡◌, Decides};
ghost use Rattle.formula.specs.Of.{clauses_of};
ghost use Rattle.label.specs.Labels.{labelled, sees, handed, flows, covered, relabelled, JoinedLabel};
ghost use Rattle.label.specs.Marks.{Covered, CoveredByTwo, sight_touches, hand_touches};
ghost use Rattle.label.specs.Order.{FlowsByGroups, FlowsOrder, JoinLeast};

use crate::{Compare, Hand, Kind, Sight, join_marks};
use answer::Refusal;
use formula::Formula;

/// A label: who sees a figure, and who has a hand in it.
#[derive(Clone, Copy)]
pub struct Label {
    pub sight: Sight,
    pub hand: Hand,
}

impl Label {
    /// Tells whether `group` sees what has this label.
    pub fn sees(&self, group: u16) -> bool
        ensures { result ≡ sees (labelled self.now) group }
    {
        self.sight.sees(group)
    }

    /// Tells whether `group` has a hand in what has this label.
    pub fn has_hand(&self, group: u16) -> bool
        ensures { result ≡ handed (labelled self.now) group }
    {
        self.hand.has(group)
    }

    /// Tells whether each mark is covered by the other label's.
    #[tactic(auto, using(crate::proofs::Order::flows_order))]
    pub fn flows_to(&self, other: &Label) -> bool
        ensures answer { result ≡ flows (labelled self.now) (labelled other.now) }
        ensures groups { FlowsByGroups }
        ensures order { FlowsOrder }
    {
        self.sides_flow(other)
    }

    /// Tells whether each mark is covered by those of the two labels together.
    pub fn covered_by_two(&self, a: &Label, b: &Label) -> bool
        ensures { result ≡ covered (labelled self.now) (labelled a.now) (labelled b.now) }
    {
        self.sides_covered(a, b)
    }

    /// The least label that both flow to, if each side keeps to its size.
    #[tactic(auto, using(crate::proofs::Order::join_least))]
    pub fn join(&self, other: &Label) -> Result<Label, Refusal>
        ensures answer { JoinedLabel (labelled self.now) (labelled other.now) result }
        ensures least { JoinLeast }
    {
        let sight = join_marks(&self.sight, &other.sight)?;
        let hand = join_marks(&self.hand, &other.hand)?;
        Ok(Label { sight, hand })
    }

    /// The label with the one formula replaced.
    pub fn relabel(&self, kind: Kind, new: Formula) -> Label
        ensures { labelled result ≡ relabelled kind (labelled self.now) (clauses_of new) }
    {
        match kind {
            Kind::Release => Label {
                sight: Sight(new),
                ..*self
            },
            Kind::Endorse => Label {
                hand: Hand(new),
                ..*self
            },
        }
    }

    /// Asks each mark whether the other label's covers it.
    fn sides_flow(&self, other: &Label) -> bool
        ensures { Decides result (Covered sight_touches (labelled self.now).sight (labelled other.now).sight
            × Covered hand_touches (labelled self.now).hand (labelled other.now).hand) }
    {
        self.sight.covered_by(&other.sight) && self.hand.covered_by(&other.hand)
    }

    /// Asks each mark whether those of the two labels together cover it.
    fn sides_covered(&self, a: &Label, b: &Label) -> bool
        ensures { Decides result (CoveredByTwo sight_touches (labelled self.now).sight (labelled a.now).sight (labelled b.now).sight
            × CoveredByTwo hand_touches (labelled self.now).hand (labelled a.now).hand (labelled b.now).hand) }
    {
        self.sight.covered_by_two(&a.sight, &b.sight) && self.hand.covered_by_two(&a.hand, &b.hand)
    }
}
