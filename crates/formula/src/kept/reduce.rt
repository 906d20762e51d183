ghost use Rattle.std.specs.Prelude.{◌≡◌};
ghost use Rattle.answer.specs.Told.{says};
ghost use Rattle.clause.specs.Meaning.{Meets};
ghost use Rattle.clause.specs.Reduced.{reduced};
ghost use Rattle.formula.specs.Of.{clauses_of};
ghost use Rattle.formula.specs.Forms.{fitting, reduces, Formed};

use super::Formula;
use answer::Refusal;

/// The longest list that is reduced.
pub const LONGEST: usize = 64;

impl Formula {
    /// The kept form of a list of clauses.
    pub fn reduce(list: &[u16]) -> Result<Formula, Refusal>
        ensures answer { says clauses_of result ≡ reduces list.now }
        ensures means { Formed (Meets list.now) result }
    {
        if list.len() > LONGEST {
            return Err(Refusal::LongList);
        }
        Formula::shrink(list)
    }

    /// The kept form of a list of any length: the least clause that contains none of those chosen
    /// so far, again and again.
    pub(crate) fn shrink(list: &[u16]) -> Result<Formula, Refusal>
        ensures answer { says clauses_of result ≡ fitting (reduced list.now) }
        ensures means { Formed (Meets list.now) result }
    {
        // one clause is the commonest list, and in kept form as it is
        if let [clause] = list {
            return Ok(Formula::of_clause(*clause));
        }
        // an array with its count: a formula grown by `push` here was tried, and took a tenth more time on call lines
        let mut clauses = [0; 8];
        let mut count = 0;
        while let Some(clause) = clause::least_beside(list, &clauses[..count]) {
            if count == 8 {
                return Err(Refusal::LargeFormula);
            }
            clauses[count] = clause;
            count += 1;
        }
        Ok(Formula { clauses, count })
    }
}
