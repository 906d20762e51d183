ghost use Rattle.std.specs.Prelude.{◌≡◌, ◌≤◌, ◌++◌, take, is_ok, if◌then◌else◌, vec_len};
ghost use Rattle.memchr.specs.Find.{IsFirstByte, is_byte};

use memchr::memchr;
use std::alloc::AllocError;
use std::io;
use std::io::{BufRead, ErrorKind};

/// As much of a line as is kept: one byte past the longest that can be a call.
const KEPT: usize = 4097;

/// Where the first line end stands in these bytes, if one does.
fn line_end(bytes: &[u8]) -> Option<usize>
    ensures { IsFirstByte (is_byte 10) bytes.now result }
{
    memchr(b'\n', bytes)
}

/// Adds a part of a line, as far as it is kept.
fn add_part(line: &mut Vec<u8>, part: &[u8]) -> Result<(), AllocError>
    requires { vec_len line.old ≤ 4097 }
    ensures small { vec_len line.new ≤ 4097 }
    ensures added { line.new.items ≡ (if is_ok result then take 4097 (line.old.items ++ part.now) else line.old.items) }
{
    let room = KEPT - line.len();
    let n = part.len().min(room);
    line.extend_from_slice(&part[..n])
}

/// Reads the next line without its end, and answers whether there was one.
pub fn next_line<R: BufRead>(input: &mut R, line: &mut Vec<u8>) -> io::Result<bool>
    ensures { vec_len line.new ≤ 4097 }
{
    line.clear();
    // A loop over input needs a count. With `read_until`, which looks at each byte by itself, the program
    // took up to a fifth longer.
    for _ in 0..u64::MAX {
        let held = match input.fill_buf() {
            Ok(held) => held,
            Err(e) if e.kind() == ErrorKind::Interrupted => continue,
            Err(e) => return Err(e),
        };
        if held.is_empty() {
            return Ok(!line.is_empty());
        }
        match line_end(held) {
            Some(end) => {
                add_part(line, &held[..end])?;
                input.consume(end + 1);
                return Ok(true);
            }
            None => {
                let count = held.len();
                add_part(line, held)?;
                input.consume(count);
            }
        }
    }
    Ok(false)
}
