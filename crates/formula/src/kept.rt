mod compare;
mod equal;
mod join;
mod keep;
mod reduce;
mod simple;
mod text;

ghost use Rattle.std.specs.Prelude.{◌≡◌, ◌≤◌, length};
ghost use Rattle.formula.specs.Kept.{Unused, Rising, Apart, Sixteen};

pub use equal::equality_is_meaning;
pub use reduce::LONGEST;

/// A formula in its kept form: at most eight clauses, rising by number, none containing another.
/// Unused places hold 0, so that formulas with the same clauses are the same value.
// An array with a length, as it is passed by value and takes no heap; and no model, whose values would be all lists of
// clauses, while what is said of every formula holds of kept forms alone.
#[derive(Clone, Copy)]
pub struct Formula {
    clauses: [u16; 8],
    count: usize,
    ghost eight: { length clauses ≡ 8 },
    ghost small: { count ≤ 8 },
    ghost unused: { Unused clauses count },
    ghost rising: { Rising clauses count },
    ghost apart: { Apart clauses count },
    ghost fits: { Sixteen clauses },
}
