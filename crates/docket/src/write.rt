ghost use Rattle.std.specs.Prelude.{◌≡◌, ◌≤◌, ◌++◌, true, length, IfOk};
ghost use Rattle.answer.specs.Told.{says, nothing};
ghost use Rattle.formula.specs.Of.{clauses_of};
ghost use Rattle.docket.specs.Entries.{plain_of, carries, carries_answer, answer_bits, formula_bits};
ghost use Rattle.docket.specs.Laws.{Sets, values_of, Carried};
ghost use Rattle.docket.specs.Writing.{next_place, packing, writing, written, ReadsBack};

use crate::bits_packed::BitsPacked;
use crate::{Entry, EntryBytes};
use answer::Refusal;
use formula::Formula;

/// Writes an entry at a place, and answers the next place.
pub fn write_entry(bytes: &mut [u8], place: u64, item: &Entry) -> Result<u64, Refusal>
    ensures answer { says next_place result ≡ writing (plain_of item.entry.now) place bytes.old }
    ensures after { bytes.new ≡ written (plain_of item.entry.now) place bytes.old }
    ensures back { ReadsBack (plain_of item.entry.now) place bytes.new result }
{
    let packed = entry_bytes(item)?;
    let next = place.saturating_add(packed.len() as u64);
    if next > bytes.len() as u64 {
        return Err(Refusal::NoRoom);
    }
    bytes[place as usize..next as usize].copy_from_slice(packed.as_slice());
    Ok(next)
}

/// The bytes of an entry that the docket can carry.
pub fn entry_bytes(item: &Entry) -> Result<EntryBytes, Refusal>
    ensures answer { says (λ bytes. bytes.items) result ≡ packing (plain_of item.entry.now) }
    ensures carried { IfOk result (λ _. Carried (plain_of item.entry.now)) }
{
    if !is_carried(item) {
        return Err(Refusal::NotCarried);
    }
    let mut bits = BitsPacked::new();
    bits.put(1, u16::from(item.kind));
    bits.put(3, item.task as u16);
    bits.put(6, item.record as u16);
    bits.put_answer(item.answer);
    bits.put_formula(&item.new);
    Ok(bits.finish())
}

/// Tells whether the docket can carry each field.
fn is_carried(item: &Entry) -> bool
    ensures { result ≡ carries (plain_of item.entry.now) }
{
    item.task < 8 && item.record < 64 && is_carried_answer(item.answer)
}

/// Tells whether the answer is one that a release or an endorsement can get.
fn is_carried_answer(answer: Result<(), Refusal>) -> bool
    ensures { result ≡ carries_answer (says nothing answer) }
{
    matches!(
        answer,
        Ok(()) | Err(Refusal::TaskState | Refusal::RecordState | Refusal::Denied(_))
    )
}

impl BitsPacked {
    /// Puts what the call was answered.
    fn put_answer(&mut self, answer: Result<(), Refusal>)
        requires { (length self.old ≤ 10) × (carries_answer (says nothing answer) ≡ true) }
        ensures put { self.new ≡ self.old ++ answer_bits (says nothing answer) }
        ensures groups { Sets (values_of (says nothing answer)) }
    {
        match answer {
            Ok(()) => self.put(1, 1),
            Err(refusal) => {
                self.put(1, 0);
                self.put(5, u16::from(refusal.number()));
                if let Some(group) = refusal.group() {
                    self.put(16, group);
                }
            }
        }
    }

    /// Puts the clause count and the clauses.
    fn put_formula(&mut self, new: &Formula)
        requires { length self.old ≤ 32 }
        ensures { self.new ≡ self.old ++ formula_bits (clauses_of new.now) }
    {
        let clauses = new.as_slice();
        self.put(4, clauses.len() as u16);
        for &clause in clauses {
            self.put(16, clause);
        }
    }
}
