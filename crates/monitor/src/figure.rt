ghost use Rattle.std.specs.Prelude.{◌≡◌, ◌<◌, ◌≤◌, MatchResult};
ghost use Rattle.answer.specs.declared.Refusal.TheVariants.{LargeFigure};

use answer::Refusal;

/// The largest figure.
pub const CEILING: u32 = 999_999_999;

/// A figure in cents, up to the ceiling.
#[derive(Clone, Copy)]
pub struct Figure {
    pub cents: u32,
    ghost small: { cents ≤ 999999999 },
}

impl TryFrom<u64> for Figure {
    type Error = Refusal;

    ghost try_from_gives = { λ n r. MatchResult r (λ f. f.cents ≡ n) (λ q. (999999999 < n) × (q ≡ LargeFigure)) };

    fn try_from(cents: u64) -> Result<Figure, Refusal> {
        if cents > u64::from(CEILING) {
            return Err(Refusal::LargeFigure);
        }
        Ok(Figure {
            cents: cents as u32,
        })
    }
}
