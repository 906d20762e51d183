//! Reads damaged dockets, a line of hexadecimal digits each, and prints what the docket's reader says
//! stands at their start, and the bytes that the writer makes of an entry that it found. The expected
//! text comes from another decoder: see tools/damage.
#![tactic(auto)]

ghost use Rattle.std.specs.Prelude.{◌<◌};

use arrayvec::ArrayVec;
use docket::{Entry, Found, read_entry, write_entry};
use std::io;
use std::io::{BufRead, BufReader, BufWriter, Write};

fn main(rt: HostRuntime) -> io::Result<()> {
    let mut out = BufWriter::new(rt.alloc(), rt.stdout())?;
    for line in BufReader::new(rt.alloc(), rt.stdin())?.lines(rt.alloc()) {
        let line = line?;
        let bytes = bytes_of(line.as_bytes());
        match read_entry(bytes.as_slice(), 0) {
            Ok(Some(Found { entry, next })) => {
                write!(out, "{line} {entry} next {next} as ")?;
                write_again(&mut out, &entry)?;
            }
            Ok(None) => writeln!(out, "{line} over")?,
            Err(refusal) => writeln!(out, "{line} {}", refusal.number())?,
        }
    }
    out.flush()
}

/// The bytes that pairs of digits write, at most 32.
fn bytes_of(digits: &[u8]) -> ArrayVec<u8, 32> {
    let pairs = digits.as_chunks::<2>().0;
    let mut bytes = ArrayVec::from([0; 32]);
    for (byte, &[high, low]) in bytes.as_mut_slice().iter_mut().zip(pairs) {
        *byte = digit(high) * 16 + digit(low);
    }
    bytes.truncate(pairs.len());
    bytes
}

/// The value of a hexadecimal digit.
// By hand, as `to_digit` takes capitals too.
fn digit(c: u8) -> u8
    ensures { result < 16 }
{
    match c {
        b'0'..=b'9' => c - b'0',
        b'a'..=b'f' => c - b'a' + 10,
        _ => 0,
    }
}

/// Prints the bytes that the writer makes of an entry, in hexadecimal digits.
fn write_again<W: Write>(out: &mut W, entry: &Entry) -> io::Result<()> {
    // `write_entry` is what is tried here: it fills what it is lent, and answers where the entry ends
    let mut bytes = [0; 21];
    let end = write_entry(&mut bytes, 0, entry).unwrap_or(0);
    for byte in bytes.get(..end as usize).unwrap_or_default() {
        write!(out, "{byte:02x}")?;
    }
    writeln!(out)
}
