//! Lists of clauses. A clause is a set of the sixteen parties, read as "one of these", and a list
//! is met by the groups that share a party with each of its clauses.
#![tactic(auto)]

mod reduce;

ghost use Rattle.std.specs.Prelude.{◌≡◌, ◌-◌, Decides, bit_or};
ghost use Rattle.clause.specs.Meaning.{Shares, Meets, Implies, BothImply, ImpliesEither};

use reduce::contains;
pub use reduce::{contains_one, least_beside};

/// Tells whether the two have a party in common.
fn shares(clause: u16, group: u16) -> bool
    ensures { Decides result (Shares clause group) }
{
    clause & group != 0
}

/// The largest group that misses both clauses.
fn outside(x: u16, y: u16) -> u16
    ensures { result ≡ 65535 - bit_or x y }
{
    !(x | y)
}

/// Tells whether `group` shares a party with each of the clauses.
pub fn meets(clauses: &[u16], group: u16) -> bool
    ensures { Decides result (Meets clauses.now group) }
{
    for &clause in clauses {
        if !shares(clause, group) {
            return false;
        }
    }
    true
}

/// Tells whether `group` meets both lists.
// Two lists and no type for the pair: nothing else is ever said of the two together.
pub fn meets_both(a: &[u16], b: &[u16], group: u16) -> bool
    ensures { Decides result (Meets a.now group × Meets b.now group) }
{
    meets(a, group) && meets(b, group)
}

/// Tells whether every group that meets `first` meets `second`.
pub fn implies(first: &[u16], second: &[u16]) -> bool
    ensures { Decides result (Implies first.now second.now) }
{
    'sought: for &wide in second {
        for &narrow in first {
            if contains(wide, narrow) {
                continue 'sought;
            }
        }
        return false;
    }
    true
}

/// Tells whether every group that meets both `a` and `b` meets `goal`.
pub fn both_imply(a: &[u16], b: &[u16], goal: &[u16]) -> bool
    ensures { Decides result (BothImply a.now b.now goal.now) }
{
    for &clause in goal {
        // the largest group that misses the clause
        let others = !clause;
        if meets_both(a, b, others) {
            return false;
        }
    }
    true
}

/// Tells whether every group that meets `first` meets `a` or `b`.
pub fn implies_either(first: &[u16], a: &[u16], b: &[u16]) -> bool
    ensures { Decides result (ImpliesEither first.now a.now b.now) }
{
    for &x in a {
        for &y in b {
            if meets(first, outside(x, y)) {
                return false;
            }
        }
    }
    true
}
