ghost use Rattle.std.specs.Prelude.{◌≡◌, is_some};
ghost use Rattle.std.specs.Option.{option_map};
ghost use Rattle.words.specs.Parted.{parted};
ghost use Rattle.words.specs.Clauses.{hex_all, or_none};
ghost use Rattle.words.specs.Formulas.{clauses_in, formula_of, written, written_in};

use super::{ClausesWord, FormulaWord};
use crate::hex_four;

/// Tells whether the word is clauses joined by full stops.
fn is_clauses(word: &[u8]) -> bool
    ensures { result ≡ is_some (hex_all (parted 46 word.now)) }
{
    word.split(|&byte| byte == b'.')
        .all(|part| hex_four(part).is_some())
}

impl<'a> ClausesWord<'a> {
    /// The part, if clauses stand there.
    fn new(part: &'a [u8]) -> Option<ClausesWord<'a>>
        ensures { option_map clauses_in result ≡ hex_all (parted 46 part.now) }
    {
        if is_clauses(part) {
            Some(ClausesWord { part })
        } else {
            None
        }
    }

    /// The part of the line.
    pub fn as_bytes(self) -> &'a [u8]
        ensures { result.now ≡ self.entry.part.now }
    {
        self.part
    }
}

impl<'a> FormulaWord<'a> {
    /// The formula word of any part of a line; a part where no clauses stand counts as True.
    // Public, as others can make no `ClausesWord` of a part.
    pub fn of_part(part: &'a [u8]) -> FormulaWord<'a>
        ensures { written result ≡ or_none (hex_all (parted 46 part.now)) }
    {
        ClausesWord::new(part).map_or(FormulaWord::True, FormulaWord::Clauses)
    }
}

/// The word as a formula, if it writes one.
// A function and no `TryFrom`: its error would say nothing.
pub fn formula_word(word: &[u8]) -> Option<FormulaWord<'_>>
    ensures { written_in result ≡ formula_of word.now }
{
    match word {
        [b'T'] => Some(FormulaWord::True),
        part => ClausesWord::new(part).map(FormulaWord::Clauses),
    }
}
