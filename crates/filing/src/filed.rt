ghost use Rattle.std.specs.Prelude.{◌≡◌, ◌≤◌, take};
ghost use Rattle.answer.specs.Told.{told};
ghost use Rattle.docket.specs.Entries.{plain_of};
ghost use Rattle.filing.specs.Filing.{line_bytes, bytes_of};

use crate::entry::entry_of;
use answer::Answer;
use docket::{Entry, LONGEST, write_entry};

/// The bytes of an entry, if there is one.
// An array with its count, as an `ArrayVec` is no `Copy`.
#[derive(Clone, Copy)]
pub struct Filed {
    bytes: [u8; LONGEST],
    count: usize,
    ghost small: { count ≤ 21 },
}

impl Filed {
    pub fn as_slice(&self) -> &[u8]
        ensures { result.now ≡ take self.now.count self.now.bytes }
    {
        &self.bytes[0..self.count]
    }
}

/// The bytes of an entry that the docket can carry, and none of another.
fn file_entry(item: &Entry) -> Filed
    ensures { take result.count result.bytes ≡ bytes_of (plain_of item.now) }
{
    let mut bytes = [0; LONGEST];
    let count = match write_entry(&mut bytes, 0, item) {
        Ok(next) => next as usize,
        Err(_) => 0,
    };
    Filed { bytes, count }
}

/// What the line, answered so, leaves in the docket.
pub fn file_line(line: &[u8], answer: Answer) -> Filed
    ensures { take result.count result.bytes ≡ line_bytes line.now (told answer) }
{
    match entry_of(line, answer) {
        Some(entry) => file_entry(&entry),
        None => Filed {
            bytes: [0; LONGEST],
            count: 0,
        },
    }
}
