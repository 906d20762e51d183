ghost use Rattle.std.specs.Prelude.{◌≡◌};
ghost use Rattle.answer.specs.Told.{says};
ghost use Rattle.formula.specs.Of.{clauses_of};
ghost use Rattle.formula.specs.Forms.{reduces};
ghost use Rattle.lines.specs.Left.{key_say};
ghost use Rattle.lines.specs.Keys.{LabelRead, BoundsRead, BoundedRead, KeyRead};
ghost use Rattle.words.specs.Formulas.{written};

use crate::call::{BoundsWords, KeyWords, LabelWords};
use crate::line_key::LineKey;
use answer::Refusal;
use formula::Formula;
use key::{Bounded, Bounds, Key, Plain, Robust};
use label::{Hand, Label, Sight};
use words::FormulaWord;

/// The plain key of the formula that a word writes.
// A function and no `TryFrom`, as both types are of other crates.
fn read_plain(word: FormulaWord<'_>) -> Result<Plain, Refusal>
    ensures { says (λ k. clauses_of k.formula) result ≡ reduces (written word.entry) }
{
    let formula = Formula::try_from(word)?;
    Ok(Plain { formula })
}

/// The label that a line writes, with its formulas reduced from left to right.
impl TryFrom<LabelWords<'_>> for Label {
    type Error = Refusal;

    ghost try_from_gives = { λ words r. LabelRead (written words.sight) (written words.hand) r };

    fn try_from(words: LabelWords<'_>) -> Result<Label, Refusal> {
        let sight = Sight(words.sight.try_into()?);
        let hand = Hand(words.hand.try_into()?);
        Ok(Label { sight, hand })
    }
}

/// The bounds that a line writes.
impl TryFrom<BoundsWords<'_>> for Bounds {
    type Error = Refusal;

    ghost try_from_gives = { BoundsRead };

    fn try_from(words: BoundsWords<'_>) -> Result<Bounds, Refusal> {
        let high = words.high.try_into()?;
        let low = words.low.try_into()?;
        Ok(Bounds { high, low })
    }
}

/// A key in a bounded wrap.
fn read_bounded<K: Key + Drop>(below: K, words: BoundsWords<'_>) -> Result<Bounded<K>, Refusal>
    ensures { BoundedRead below words.entry result }
{
    let bounds = words.try_into()?;
    Ok(Bounded {
        below,
        mode: words.mode,
        bounds,
    })
}

/// The key that a line writes, with its formulas reduced from left to right.
impl TryFrom<KeyWords<'_>> for LineKey {
    type Error = Refusal;

    ghost try_from_gives = { λ words r. KeyRead (key_say words) r };

    fn try_from(words: KeyWords<'_>) -> Result<LineKey, Refusal> {
        let below = read_plain(words.plain)?;
        match (words.robust, words.bounds) {
            (None, None) => Ok(LineKey::Plain(below)),
            (Some(mode), None) => Ok(LineKey::Robust(Robust { below, mode })),
            (None, Some(words)) => Ok(LineKey::Bounded(read_bounded(below, words)?)),
            (Some(mode), Some(words)) => {
                let below = Robust { below, mode };
                Ok(LineKey::BoundedRobust(read_bounded(below, words)?))
            }
        }
    }
}
