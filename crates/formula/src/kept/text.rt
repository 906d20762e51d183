ghost use Rattle.std.specs.Prelude.{Some};
ghost use Rattle.formula.specs.Of.{clauses_of};
ghost use Rattle.formula.specs.Text.{formula_text};

use super::Formula;
use std::fmt;

impl fmt::Display for Formula {
    ghost output = { λ f. Some (formula_text (clauses_of f)) };

    fn fmt<W: fmt::Write>(&self, f: &mut fmt::Formatter<W>) -> fmt::Result {
        let [first, rest @ ..] = self.as_slice() else {
            return write!(f, "T");
        };
        write!(f, "{first:04x}")?;
        for clause in rest {
            write!(f, ".{clause:04x}")?;
        }
        Ok(())
    }
}
