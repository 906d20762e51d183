//! The static library for C: each export calls the function of `exports` that has its name, with the same clauses.
// They stand twice for the C interface: a static library's items cannot be imported, and tests cite those of `exports`.
#![tactic(auto)]

ghost use Rattle.std.specs.Prelude.{◌≡◌};
ghost use Rattle.docket.specs.Reading.{read_at};
ghost use Rattle.exports.specs.Comparing.{compared, code_of, ByGroups};
ghost use Rattle.exports.specs.Entries.{read_code, left};

use exports::YardEntry;

/// Tells whether one list of clauses implies another, two bytes a clause, high byte first.
#[unsafe(no_mangle)]
pub extern "C" fn yard_compare(first: &[u8], second: &[u8]) -> u32
    ensures answer { result ≡ code_of (compared first.now second.now) }
    ensures means { ByGroups first.now second.now (compared first.now second.now) }
{
    exports::yard_compare(first, second)
}

/// Reads what stands at a place of the docket, and fills `out` where that is an entry.
#[unsafe(no_mangle)]
pub extern "C" fn yard_read_entry(bytes: &[u8], place: u64, out: &mut YardEntry) -> u32
    ensures answer { result ≡ read_code (read_at bytes.now place) }
    ensures after { out.new ≡ left (read_at bytes.now place) out.old }
{
    exports::yard_read_entry(bytes, place, out)
}
