ghost use Rattle.std.specs.Prelude.{◌≡◌, ◌≤◌, MatchResult};
ghost use Rattle.answer.specs.declared.Refusal.TheVariants.{NoSuchManner};
ghost use Rattle.monitor.specs.Manner.{number_of};
ghost use Rattle.rules.specs.Step.{worked};

use crate::figure::{CEILING, Figure};
use answer::Refusal;

/// How a task works the figure in that it takes.
#[derive(Clone, Copy)]
pub enum Manner {
    Add,
    Subtract,
    Multiply,
}

impl TryFrom<u64> for Manner {
    type Error = Refusal;

    ghost try_from_gives = { λ n r. MatchResult r (λ m. number_of m ≡ n) (λ q. (3 ≤ n) × (q ≡ NoSuchManner)) };

    fn try_from(number: u64) -> Result<Manner, Refusal> {
        match number {
            0 => Ok(Manner::Add),
            1 => Ok(Manner::Subtract),
            2 => Ok(Manner::Multiply),
            _ => Err(Refusal::NoSuchManner),
        }
    }
}

impl Manner {
    /// The figure of a task that has `a` and takes in `b`.
    pub(super) fn reckon(self, a: Figure, b: Figure) -> Figure
        ensures { result.cents ≡ worked (number_of self) a.cents b.cents }
    {
        let ceiling = u64::from(CEILING);
        let a = u64::from(a.cents);
        let b = u64::from(b.cents);
        let cents = match self {
            Manner::Add if a + b > ceiling => CEILING,
            Manner::Add => (a + b) as u32,
            Manner::Subtract if a < b => 0,
            Manner::Subtract => (a - b) as u32,
            Manner::Multiply if a * b > ceiling => CEILING,
            Manner::Multiply => (a * b) as u32,
        };
        Figure { cents }
    }
}
