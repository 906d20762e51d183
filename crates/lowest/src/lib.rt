//! The lowest-numbered group that meets two lists of clauses and misses a third, found without going
//! through the groups: at most 8 · 17 · 16 clause tests where each list has at most 8 clauses.
#![tactic(auto)]

ghost use Rattle.std.specs.Prelude.{◌≡◌, ◌-◌, ◌^◌, ◌<◌, not, ◌&&◌, bit_and};
ghost use Rattle.clause.specs.Groups.{met, lowest, earlier as earlier_of};
ghost use Rattle.lowest.specs.First.{First, Fitting, Missing};

/// The group without one party.
fn without(group: u16, party: u32) -> u16
    requires { party < 16 }
    ensures { result ≡ bit_and group (65535 - 2 ^ party) }
{
    group & !(1 << party)
}

// Two lists and no type for the pair, as in `clause`.
/// The lowest group inside `allowed` that meets each of both lists. A larger group meets what a
/// smaller one meets, so each party is left out where the rest will do, from the highest down.
fn lowest_within(allowed: u16, needs: &[u16], more: &[u16]) -> Option<u16>
    ensures { First (Fitting allowed needs.now more.now) result }
{
    if !clause::meets_both(needs, more, allowed) {
        return None;
    }
    let mut group = allowed;
    for party in (0..16).rev() {
        let rest = without(group, party);
        if clause::meets_both(needs, more, rest) {
            group = rest;
        }
    }
    Some(group)
}

/// The earlier of two groups, where there are two.
pub fn earlier(a: Option<u16>, b: Option<u16>) -> Option<u16>
    ensures { result ≡ earlier_of a b }
{
    match (a, b) {
        (Some(x), Some(y)) => Some(x.min(y)),
        _ => a.or(b),
    }
}

/// The lowest group that meets each clause of `needs` and of `more`, and misses one of `missed`.
pub fn lowest_missing(missed: &[u16], needs: &[u16], more: &[u16]) -> Option<u16>
    ensures answer { result ≡ lowest (λ g. (met needs.now g && met more.now g) && not (met missed.now g)) }
    ensures first { First (Missing missed.now needs.now more.now) result }
{
    let mut best = None;
    for &clause in missed {
        best = earlier(best, lowest_within(!clause, needs, more));
    }
    best
}
