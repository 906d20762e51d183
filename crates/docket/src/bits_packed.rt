ghost use Rattle.std.specs.Prelude.{◌≡◌, ◌+◌, ◌-◌, ◌*◌, ◌%◌, ◌^◌, ◌<◌, ◌≤◌, [], ◌++◌, length};
ghost use Rattle.docket.specs.Bits.{bits, unpack};
ghost use Rattle.docket.specs.Laws.{Bytes};

use crate::entry::{EntryBytes, LONGEST};
use std::marker::Model;

/// Bits put one behind another: the bytes that they fill, and those that wait for the next byte.
#[derive(Drop)]
pub(crate) struct BitsPacked {
    bytes: EntryBytes,
    held: u32,
    count: usize,
}

impl Model for BitsPacked {
    ghost use Rattle.std.specs.Prelude.{ℕ, List, ◌++◌, ◌<◌, ◌^◌};
    ghost use Rattle.docket.specs.Bits.{bits, unpack};
    ghost use Rattle.docket.specs.Laws.{Bytes};

    ghost Value = { List ℕ };

    ghost view = { λ p. unpack p.bytes.items ++ bits p.count p.held };

    ghost invariant = { λ p. Bytes p.bytes.items × (p.count < 8) × (p.held < 2 ^ p.count) };
}

impl BitsPacked {
    pub(crate) fn new() -> BitsPacked
        ensures { result ≡ [] }
    {
        BitsPacked {
            bytes: EntryBytes::new(),
            held: 0,
            count: 0,
        }
    }

    /// Puts the lowest `width` bits of a number.
    pub(crate) fn put(&mut self, width: usize, value: u16)
        requires { (value < 2 ^ width) × (width ≤ 16) × (length self.old + width ≤ 8 * LONGEST) }
        ensures { self.new ≡ self.old ++ bits width value }
    {
        self.held = self.held << width | u32::from(value);
        self.count += width;
        while self.count >= 8 {
            self.count -= 8;
            self.bytes.push((self.held >> self.count) as u8);
            self.held %= 1 << self.count;
        }
    }

    /// The bytes, with zero bits to the end of the last.
    pub(crate) fn finish(mut self) -> EntryBytes
        requires { length self ≤ 8 * LONGEST }
        ensures bits { unpack result.items ≡ self ++ bits ((8 - length self % 8) % 8) 0 }
        ensures bytes { Bytes result.items }
    {
        let width = (8 - self.count) % 8;
        self.put(width, 0);
        self.bytes
    }
}
