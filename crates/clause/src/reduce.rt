ghost use Rattle.std.specs.Prelude.{◌≡◌, min, length, Decides, MatchOption};
ghost use Rattle.clause.specs.Parts.{Part, Over, Found};

/// Tells whether `wide` names every party that `narrow` names.
pub(crate) fn contains(wide: u16, narrow: u16) -> bool
    ensures { Decides result (Part narrow wide) }
{
    narrow & wide == narrow
}

/// Tells whether `clause` contains one of `parts`.
pub fn contains_one(clause: u16, parts: &[u16]) -> bool
    ensures { Decides result (Over parts.now clause) }
{
    for &part in parts {
        if contains(clause, part) {
            return true;
        }
    }
    false
}

/// The lesser of `clause` and what was found before it, if anything was.
fn lesser(found: Option<u16>, clause: u16) -> u16
    ensures { MatchOption found (result ≡ clause) (λ c. result ≡ min c clause) }
{
    match found {
        None => clause,
        Some(found) => found.min(clause),
    }
}

/// The least clause of `list` that contains none of `chosen`.
pub fn least_beside(list: &[u16], chosen: &[u16]) -> Option<u16>
    ensures { Found list.now (length list.now) chosen.now result }
{
    let mut least = None;
    for &clause in list {
        if !contains_one(clause, chosen) {
            least = Some(lesser(least, clause));
        }
    }
    least
}
