ghost use Rattle.std.specs.Prelude.{◌≡◌, ◌⊎◌, bit_or};
ghost use Rattle.answer.specs.Told.{says};
ghost use Rattle.clause.specs.Meaning.{Meets};
ghost use Rattle.formula.specs.Of.{clauses_of};
ghost use Rattle.formula.specs.Forms.{fitting, both, either, Formed};

use super::Formula;
use answer::Refusal;
use arrayvec::ArrayVec;

/// The clause that names the parties of both.
fn union(a: u16, b: u16) -> u16
    ensures { result ≡ bit_or a b }
{
    a | b
}

impl Formula {
    /// The formula that the groups meet which meet both.
    #[tactic(auto, using(crate::proofs::Gathering::formed_and))]
    pub fn and(self, other: Formula) -> Result<Formula, Refusal>
        ensures answer { says clauses_of result ≡ fitting (both (clauses_of self) (clauses_of other)) }
        ensures means { Formed (λ g. Meets (clauses_of self) g × Meets (clauses_of other) g) result }
    {
        let mut list: ArrayVec<u16, 16> = ArrayVec::new();
        list.try_extend_from_slice(self.as_slice()).unwrap();
        list.try_extend_from_slice(other.as_slice()).unwrap();
        Formula::shrink(&list)
    }

    /// The formula that the groups meet which meet either.
    pub fn or(self, other: Formula) -> Result<Formula, Refusal>
        ensures answer { says clauses_of result ≡ fitting (either (clauses_of self) (clauses_of other)) }
        ensures means { Formed (λ g. Meets (clauses_of self) g ⊎ Meets (clauses_of other) g) result }
    {
        let ours = self.as_slice();
        let theirs = other.as_slice();
        let mut list: ArrayVec<u16, 64> = ArrayVec::new();
        for &first in ours {
            for &second in theirs {
                list.push(union(first, second));
            }
        }
        Formula::shrink(&list)
    }
}
