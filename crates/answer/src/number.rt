ghost use Rattle.std.specs.Prelude.{◌≡◌};
ghost use Rattle.answer.specs.declared.Answer.TheVariants.{Refused};
ghost use Rattle.answer.specs.Told.{told, question_of, group_of};

use crate::{Denial, Refusal};

impl Denial {
    /// The number of the question that had the answer no.
    fn number(self) -> u8
        ensures { result ≡ question_of (told (Refused (Refusal.Denied self))) }
    {
        match self {
            Denial::NotCovered => 12,
            Denial::OutsideMode => 13,
            Denial::AboveHigh => 14,
            Denial::BelowLow => 15,
            Denial::Steered(_) => 16,
        }
    }
}

impl Refusal {
    /// The number of the question that had the answer no.
    // By name and not by `From`, as `group` is: a number alone does not say what was refused.
    pub fn number(self) -> u8
        ensures { result ≡ question_of (told (Refused self)) }
    {
        match self {
            Refusal::LongList => 1,
            Refusal::LargeFormula => 2,
            Refusal::NoSuchNumber => 3,
            Refusal::LargeFigure => 4,
            Refusal::TaskState => 5,
            Refusal::RecordState => 6,
            Refusal::NoSuchManner => 7,
            Refusal::NotItsHand => 8,
            Refusal::NoFlow => 9,
            Refusal::LargeLabel => 10,
            Refusal::NotSeen => 11,
            Refusal::Denied(denial) => denial.number(),
            Refusal::NoRoom => 17,
            Refusal::NotCarried => 18,
            Refusal::Missing => 19,
            Refusal::Unlawful => 20,
            Refusal::NoForm => 21,
        }
    }

    /// The group that the refusal brings, at question 16 alone.
    pub fn group(self) -> Option<u16>
        ensures { result ≡ group_of (told (Refused self)) }
    {
        match self {
            Refusal::Denied(Denial::Steered(group)) => Some(group),
            _ => None,
        }
    }
}
