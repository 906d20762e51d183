ghost use Rattle.words.specs.Parted.{Cut, PartsJoin};

/// The part of a row of bytes before its first separator, and what follows that.
// By hand, as slices have no `split_once`, and `splitn` hands out the first part as an `Option`.
#[tactic(auto, using(crate::proofs::Joins::joins_parts, crate::proofs::Joins::all_without))]
pub fn cut(row: &[u8], sep: u8) -> (&[u8], Option<&[u8]>)
    ensures parts { Cut sep row.now result.0.now result.1 }
    ensures joins { PartsJoin }
{
    match row.iter().position(|&byte| byte == sep) {
        Some(i) => (&row[..i], Some(&row[i + 1..])),
        None => (row, None),
    }
}
