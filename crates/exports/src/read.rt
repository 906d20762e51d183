ghost use Rattle.std.specs.Prelude.{◌≡◌};
ghost use Rattle.answer.specs.Told.{says, nothing, question_of};
ghost use Rattle.formula.specs.Of.{clauses_of};
ghost use Rattle.docket.specs.Entries.{plain_of};
ghost use Rattle.docket.specs.Reading.{read_at};
ghost use Rattle.exports.specs.Entries.{group_in, filled, padded, read_code, left};

use crate::YardEntry;
use answer::Refusal;
use docket::Found;
use formula::Formula;

/// Reads what stands at a place of the docket, and fills `out` where that is an entry.
pub fn yard_read_entry(bytes: &[u8], place: u64, out: &mut YardEntry) -> u32
    ensures answer { result ≡ read_code (read_at bytes.now place) }
    ensures after { out.new ≡ left (read_at bytes.now place) out.old }
{
    // C has no enums with values, so it gets a number for each outcome.
    match docket::read_entry(bytes, place) {
        Ok(Some(found)) => {
            *out = YardEntry::from(found);
            0
        }
        Ok(None) => 1,
        Err(refusal) => u32::from(refusal.number()),
    }
}

impl From<Found> for YardEntry {
    ghost from_gives = { λ found e. e ≡ filled (plain_of found.entry) found.next };

    fn from(found: Found) -> YardEntry {
        let Found { entry, next } = found;
        YardEntry {
            kind: u32::from(u16::from(entry.kind)),
            question: question(entry.answer),
            task: entry.task,
            record: entry.record,
            next,
            group: group(entry.answer),
            count: entry.new.as_slice().len() as u16,
            clauses: clauses(entry.new),
        }
    }
}

// C has no `Result`, so it gets 0 where the call was granted.
fn question(answer: Result<(), Refusal>) -> u32
    ensures { result ≡ question_of (says nothing answer) }
{
    match answer {
        Ok(()) => 0,
        Err(refusal) => u32::from(refusal.number()),
    }
}

fn group(answer: Result<(), Refusal>) -> u16
    ensures { result ≡ group_in (says nothing answer) }
{
    answer
        .err()
        .and_then(|refusal| refusal.group())
        .unwrap_or(0)
}

fn clauses(new: Formula) -> [u16; 8]
    ensures { result ≡ padded (clauses_of new) }
{
    let list = new.as_slice();
    let mut all = [0; 8];
    all[..list.len()].copy_from_slice(list);
    all
}
