ghost use Rattle.std.specs.Prelude.{◌≡◌, ℕ, List, ◌++◌, true, Err, MatchResult};
ghost use Rattle.answer.specs.Told.{Told, says, nothing};
ghost use Rattle.formula.specs.Of.{clauses_of};
ghost use Rattle.docket.specs.Entries.{answer_bits, carries_answer, formula_bits};
ghost use Rattle.docket.specs.Reading.{Reading, answer_at, formula_at, number_of};
ghost use Rattle.docket.specs.Laws.{Sets, values_of};

use crate::bits_left::BitsLeft;
use answer::{Denial, Refusal};
use arrayvec::ArrayVec;
use formula::Formula;

impl<'a> BitsLeft<'a> {
    /// What the call was answered.
    pub(crate) fn answer(&mut self) -> Result<Result<(), Refusal>, Refusal>
        ensures { MatchResult result
            (λ a. (self.old ≡ answer_bits (says nothing a) ++ self.new)
            × (carries_answer (says nothing a) ≡ true)
            × Sets (values_of (says nothing a)))
            (λ q. (next : Told → List ℕ → Reading) → answer_at self.old next ≡ Err (number_of q)) }
    {
        if self.take(1)? == 1 {
            return Ok(Ok(()));
        }
        // The questions that an entry can carry are fewer than `Refusal` has, so this is no conversion of its own.
        let refusal = match self.take(5)? {
            5 => Refusal::TaskState,
            6 => Refusal::RecordState,
            12 => Refusal::Denied(Denial::NotCovered),
            13 => Refusal::Denied(Denial::OutsideMode),
            14 => Refusal::Denied(Denial::AboveHigh),
            15 => Refusal::Denied(Denial::BelowLow),
            16 => Refusal::Denied(Denial::Steered(self.take(16)?)),
            _ => return Err(Refusal::Unlawful),
        };
        Ok(Err(refusal))
    }

    /// The new formula, judged after its last clause.
    pub(crate) fn formula(&mut self) -> Result<Formula, Refusal>
        ensures { MatchResult result
            (λ f. self.old ≡ formula_bits (clauses_of f) ++ self.new)
            (λ q. (next : List ℕ → List ℕ → Reading) → formula_at self.old next ≡ Err (number_of q)) }
    {
        let count = self.take(4)?;
        if count > 8 {
            return Err(Refusal::Unlawful);
        }
        let mut clauses = ArrayVec::<u16, 8>::new();
        for _ in 0..count {
            clauses.push(self.take(16)?);
        }
        Formula::keep(clauses.as_slice()).ok_or(Refusal::Unlawful)
    }
}
