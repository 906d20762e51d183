mod read;
mod word;

ghost use Rattle.std.specs.Prelude.{IsSome};
ghost use Rattle.words.specs.Parted.{parted};
ghost use Rattle.words.specs.Clauses.{hex_all};

pub use read::read_formula;
pub use word::formula_word;

/// The part of a line where clauses stand, joined by full stops.
#[derive(Clone, Copy)]
pub struct ClausesWord<'a> {
    part: &'a [u8],
    ghost lawful: { IsSome (hex_all (parted 46 part.now)) },
}

/// A formula as a line writes it. Nothing of the line is copied: the case of clauses holds the part where they stand.
#[derive(Clone, Copy)]
pub enum FormulaWord<'a> {
    True,
    Clauses(ClausesWord<'a>),
}
