ghost use Rattle.trials.specs.Few.{few_clauses};

use answer::Denial;
use key::{Key, Request};

/// A key of another kind, as anybody may write one: it grants whatever has few clauses.
#[derive(Clone, Copy)]
pub struct FewClauses {
    pub limit: usize,
}

impl Key for FewClauses {
    ghost meaning = { λ k. few_clauses k.limit };

    fn ask(&self, request: &Request) -> Result<(), Denial> {
        if request.new.as_slice().len() < self.limit {
            Ok(())
        } else {
            Err(Denial::BelowLow)
        }
    }
}
