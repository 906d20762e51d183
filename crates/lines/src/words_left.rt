ghost use Rattle.std.specs.Prelude.{◌≡◌};
ghost use Rattle.words.specs.Decimal.{decimal};
ghost use Rattle.words.specs.Formulas.{formula_of, written_in};
ghost use Rattle.words.specs.Hex.{hex_four};
ghost use Rattle.words.specs.Modes.{mode_of};
ghost use Rattle.words.specs.Parted.{parted};
ghost use Rattle.lines.specs.Left.{Took, Taken, Ended, LabelTaken, BoundsTaken, KeyTaken};

use crate::call::{BoundsWords, KeyWords, LabelWords};
use key::Mode;
use std::marker::Model;
use words::{FormulaWord, cut, formula_word, hex_four, mode_word, number};

/// The words of a line that have not been read yet.
#[derive(Drop)]
pub struct WordsLeft<'a> {
    rest: Option<&'a [u8]>,
}

impl<'a> Model for WordsLeft<'a> {
    ghost use Rattle.std.specs.Prelude.{ℕ, List};
    ghost use Rattle.lines.specs.Rest.{left_of};

    ghost Value = { List (List ℕ) };

    ghost view = { λ words. left_of words.rest };
}

impl<'a> WordsLeft<'a> {
    /// All words of a line.
    pub(crate) fn new(line: &'a [u8]) -> WordsLeft<'a>
        ensures { result ≡ parted 32 line.now }
    {
        WordsLeft { rest: Some(line) }
    }

    /// The next word.
    pub(crate) fn word(&mut self) -> Option<&'a [u8]>
        ensures { Took self.old result self.new }
    {
        let (word, rest) = cut(self.rest?, b' ');
        self.rest = rest;
        Some(word)
    }

    // One line each: a common reader would take a closure at each call, as no function of another crate goes in by name.
    pub(crate) fn number(&mut self) -> Option<u64>
        ensures { Taken decimal self.old result self.new }
    {
        number(self.word()?)
    }

    pub(crate) fn group(&mut self) -> Option<u16>
        ensures { Taken hex_four self.old result self.new }
    {
        hex_four(self.word()?)
    }

    pub(crate) fn formula(&mut self) -> Option<FormulaWord<'a>>
        ensures { Taken formula_of self.old (written_in result) self.new }
    {
        formula_word(self.word()?)
    }

    fn mode(&mut self) -> Option<Mode>
        ensures { Taken mode_of self.old result self.new }
    {
        mode_word(self.word()?)
    }

    /// The two formulas of a label.
    pub(crate) fn label(&mut self) -> Option<LabelWords<'a>>
        ensures { LabelTaken self.old result self.new }
    {
        let sight = self.formula()?;
        let hand = self.formula()?;
        Some(LabelWords { sight, hand })
    }

    /// The words that a bounded wrap adds.
    fn bounds(&mut self) -> Option<BoundsWords<'a>>
        ensures { BoundsTaken self.old result self.new }
    {
        let mode = self.mode()?;
        let high = self.label()?;
        let low = self.label()?;
        Some(BoundsWords { mode, high, low })
    }

    /// A key: its code, its plain formula, and what the wraps add.
    pub(crate) fn key(&mut self) -> Option<KeyWords<'a>>
        ensures { KeyTaken self.old result self.new }
    {
        let code = self.number()?;
        let plain = self.formula()?;
        let (robust, bounds) = match code {
            0 => (None, None),
            1 => (Some(self.mode()?), None),
            2 => (None, Some(self.bounds()?)),
            3 => (Some(self.mode()?), Some(self.bounds()?)),
            _ => return None,
        };
        Some(KeyWords {
            plain,
            robust,
            bounds,
        })
    }

    /// Nothing, where no word is left.
    pub(crate) fn end(&self) -> Option<()>
        ensures { Ended self.now result }
    {
        match self.rest {
            None => Some(()),
            Some(_) => None,
        }
    }
}
