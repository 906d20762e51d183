ghost use Rattle.std.specs.Prelude.{◌≡◌, ◌+◌, ◌*◌, ◌%◌, length, IfOk};
ghost use Rattle.docket.specs.Entries.{plain_of, size_of};
ghost use Rattle.docket.specs.Reading.{kind_of, reading, entry_at, standing, read_at};
ghost use Rattle.docket.specs.Laws.{WasWritten, DocketLaws};

use crate::bits_left::BitsLeft;
use crate::{Entry, Found};
use answer::Refusal;
use label::Kind;

/// What stands at a place of the docket, or nothing at the docket's end.
#[tactic(auto, using(crate::proofs::Laws::laws))]
pub fn read_entry(bytes: &[u8], place: u64) -> Result<Option<Found>, Refusal>
    ensures answer { standing result ≡ read_at bytes.now place }
    ensures written { WasWritten bytes.now place (standing result) }
    ensures laws { DocketLaws }
{
    let rest = match bytes.get(place as usize..) {
        None => return Err(Refusal::Missing),
        Some([]) => return Ok(None),
        Some(rest) => rest,
    };
    let mut bits = BitsLeft::new(rest);
    let entry = bits.entry()?;
    let next = (bytes.len() - bits.whole_bytes()) as u64;
    Ok(Some(Found { entry, next }))
}

impl<'a> BitsLeft<'a> {
    /// The entry that whole bytes begin with.
    fn entry(&mut self) -> Result<Entry, Refusal>
        requires { length self.old % 8 ≡ 0 }
        ensures answer { reading result ≡ entry_at self.old }
        ensures size { IfOk result (λ e. length self.old ≡ 8 * size_of (plain_of e) + length self.new) }
    {
        let kind = self.take(1)?;
        let task = self.take(3)?;
        let record = self.take(6)?;
        let answer = self.answer()?;
        let new = self.formula()?;
        if self.rest_of_byte() != 0 {
            return Err(Refusal::Unlawful);
        }
        Ok(Entry {
            kind: kind_of(kind),
            task: u64::from(task),
            record: u64::from(record),
            answer,
            new,
        })
    }
}

/// The kind that a bit stands for.
// A bit has no third value that a `TryFrom` could refuse.
fn kind_of(bit: u16) -> Kind
    ensures { result ≡ kind_of bit }
{
    match bit {
        0 => Kind::Release,
        _ => Kind::Endorse,
    }
}
