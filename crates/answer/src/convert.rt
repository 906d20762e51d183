ghost use Rattle.std.specs.Prelude.{◌≡◌};
ghost use Rattle.std.specs.Option.{option_to_list};
ghost use Rattle.answer.specs.declared.Refusal.TheVariants.{Denied};
ghost use Rattle.answer.specs.Told.{told, says, nothing};

use crate::{Answer, Denial, Refusal};

impl From<Denial> for Refusal {
    ghost from_gives = { λ d r. r ≡ Denied d };

    fn from(denial: Denial) -> Refusal {
        Refusal::Denied(denial)
    }
}

impl From<Result<(), Refusal>> for Answer {
    ghost from_gives = { λ r a. told a ≡ says nothing r };

    fn from(outcome: Result<(), Refusal>) -> Answer {
        match outcome {
            Ok(()) => Answer::Done,
            Err(refusal) => Answer::Refused(refusal),
        }
    }
}

impl From<Result<Option<u32>, Refusal>> for Answer {
    ghost from_gives = { λ r a. told a ≡ says option_to_list r };

    fn from(outcome: Result<Option<u32>, Refusal>) -> Answer {
        match outcome {
            Ok(None) => Answer::Done,
            Ok(Some(figure)) => Answer::Figure(figure),
            Err(refusal) => Answer::Refused(refusal),
        }
    }
}
