ghost use Rattle.std.specs.Prelude.{◌≡◌, ◌/◌, ◌%◌, ◌^◌, ◌<◌, ◌≤◌, ◌++◌, length, IfOk, MatchResult};
ghost use Rattle.answer.specs.declared.Refusal.TheVariants.{Missing};
ghost use Rattle.docket.specs.Bits.{bits, unpack};

use answer::Refusal;
use std::marker::Model;

/// The bits of a docket that are left to read: those held, and those of the bytes behind them.
#[derive(Drop)]
pub(crate) struct BitsLeft<'a> {
    held: u32,
    count: usize,
    bytes: &'a [u8],
}

impl<'a> Model for BitsLeft<'a> {
    ghost use Rattle.std.specs.Prelude.{ℕ, List, ◌++◌, ◌<◌, ◌^◌};
    ghost use Rattle.docket.specs.Bits.{bits, unpack};

    ghost Value = { List ℕ };

    ghost view = { λ l. bits l.count l.held ++ unpack l.bytes.now };

    ghost invariant = { λ l. (l.count < 24) × (l.held < 2 ^ l.count) };
}

impl<'a> BitsLeft<'a> {
    pub(crate) fn new(bytes: &'a [u8]) -> BitsLeft<'a>
        ensures { result ≡ unpack bytes.now }
    {
        BitsLeft {
            held: 0,
            count: 0,
            bytes,
        }
    }

    /// Takes the next `width` bits, and gives the number that they write.
    pub(crate) fn take(&mut self, width: usize) -> Result<u16, Refusal>
        requires { width ≤ 16 }
        ensures taken { MatchResult result
            (λ v. self.old ≡ bits width v ++ self.new)
            (λ q. (q ≡ Missing) × (length self.old < width)) }
        ensures small { IfOk result (λ v. v < 2 ^ width) }
    {
        while self.count < width {
            let [byte, rest @ ..] = self.bytes else {
                return Err(Refusal::Missing);
            };
            self.bytes = rest;
            self.held = self.held << 8 | u32::from(*byte);
            self.count += 8;
        }
        self.count -= width;
        let value = (self.held >> self.count) as u16;
        self.held %= 1 << self.count;
        Ok(value)
    }

    /// How many whole bytes are left.
    pub(crate) fn whole_bytes(&self) -> usize
        ensures { result ≡ length self.now / 8 }
    {
        self.count / 8 + self.bytes.len()
    }

    /// Takes what is left of a byte that is begun, and gives the number that those bits write: 0 where none is begun.
    pub(crate) fn rest_of_byte(&mut self) -> u16
        ensures taken { self.old ≡ bits (length self.old % 8) result ++ self.new }
        ensures small { result < 2 ^ (length self.old % 8) }
    {
        self.take(self.count % 8).unwrap()
    }
}
