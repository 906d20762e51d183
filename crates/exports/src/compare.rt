ghost use Rattle.std.specs.Prelude.{◌≡◌};
ghost use Rattle.answer.specs.Told.{says};
ghost use Rattle.formula.specs.Of.{clauses_of};
ghost use Rattle.exports.specs.Comparing.{formula_from, outcome_of, compared, code_of, ByGroups};

use answer::Refusal;
use arrayvec::ArrayVec;
use formula::{Formula, LONGEST};

/// Tells whether one list of clauses implies another, two bytes a clause, high byte first.
pub fn yard_compare(first: &[u8], second: &[u8]) -> u32
    ensures answer { result ≡ code_of (compared first.now second.now) }
    ensures means { ByGroups first.now second.now (compared first.now second.now) }
{
    code(compare(first, second))
}

/// How a comparison ends.
// One enum of four cases: with a `Result` of an error of two, lists that are refused took C 1.7 times as long.
#[derive(Clone, Copy)]
pub enum Outcome {
    No,
    Yes,
    /// The first list is refused.
    First(Refusal),
    /// The second list is refused.
    Second(Refusal),
}

/// The number that C gets.
fn code(outcome: Outcome) -> u32
    ensures { result ≡ code_of (outcome_of outcome) }
{
    match outcome {
        Outcome::No => 0,
        Outcome::Yes => 1,
        Outcome::First(refusal) => 100 + u32::from(refusal.number()),
        Outcome::Second(refusal) => 200 + u32::from(refusal.number()),
    }
}

fn compare(first: &[u8], second: &[u8]) -> Outcome
    ensures answer { outcome_of result ≡ compared first.now second.now }
    ensures means { ByGroups first.now second.now (outcome_of result) }
{
    let a = match formula_from(first) {
        Ok(formula) => formula,
        Err(refusal) => return Outcome::First(refusal),
    };
    let b = match formula_from(second) {
        Ok(formula) => formula,
        Err(refusal) => return Outcome::Second(refusal),
    };
    if a.implies(b) {
        Outcome::Yes
    } else {
        Outcome::No
    }
}

/// The kept form of a list of clauses in bytes.
fn formula_from(bytes: &[u8]) -> Result<Formula, Refusal>
    ensures { says clauses_of result ≡ formula_from bytes.now }
{
    // what is refused is refused before any byte is looked at
    if bytes.len() % 2 != 0 {
        return Err(Refusal::Missing);
    }
    if bytes.len() > 2 * LONGEST {
        return Err(Refusal::LongList);
    }
    let (pairs, _) = bytes.as_chunks::<2>();
    let mut clauses = ArrayVec::<u16, LONGEST>::new();
    for &pair in pairs {
        clauses.push(u16::from_be_bytes(pair));
    }
    Formula::reduce(clauses.as_slice())
}
