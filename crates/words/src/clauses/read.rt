ghost use Rattle.std.specs.Prelude.{◌≡◌};
ghost use Rattle.answer.specs.Told.{says};
ghost use Rattle.formula.specs.Of.{clauses_of};
ghost use Rattle.formula.specs.Forms.{reduces};
ghost use Rattle.words.specs.Formulas.{clauses_in, written};

use super::{ClausesWord, FormulaWord};
use crate::hex_four;
use answer::Refusal;
use arrayvec::ArrayVec;
use formula::{Formula, LONGEST};

impl ClausesWord<'_> {
    /// The clauses, reduced.
    fn read(self) -> Result<Formula, Refusal>
        ensures { says clauses_of result ≡ reduces (clauses_in self.entry) }
    {
        let mut list = ArrayVec::<u16, LONGEST>::new();
        for part in self.part.split(|&byte| byte == b'.') {
            let clause = hex_four(part).unwrap();
            list.try_push(clause).map_err(|_| Refusal::LongList)?;
        }
        Formula::reduce(list.as_slice())
    }
}

/// The formula that a word writes, reduced to its kept form.
pub fn read_formula(word: FormulaWord<'_>) -> Result<Formula, Refusal>
    ensures { says clauses_of result ≡ reduces (written word.entry) }
{
    Formula::try_from(word)
}

/// The same, as a conversion.
impl TryFrom<FormulaWord<'_>> for Formula {
    type Error = Refusal;

    ghost try_from_gives = { λ word r. says clauses_of r ≡ reduces (written word) };

    fn try_from(word: FormulaWord<'_>) -> Result<Formula, Refusal> {
        match word {
            FormulaWord::True => Ok(Formula::truth()),
            FormulaWord::Clauses(word) => word.read(),
        }
    }
}
