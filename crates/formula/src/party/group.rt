ghost use Rattle.std.specs.Prelude.{◌≡◌};
ghost use Rattle.formula.specs.Party.{alone, PartyOf};

use super::Party;
use answer::Refusal;

/// The party of that number, if there is one.
impl TryFrom<u64> for Party {
    type Error = Refusal;

    ghost try_from_gives = { PartyOf };

    fn try_from(number: u64) -> Result<Party, Refusal> {
        if number < 16 {
            Ok(Party {
                number: number as u8,
            })
        } else {
            Err(Refusal::NoSuchNumber)
        }
    }
}

impl Party {
    /// The group of this party alone.
    pub fn alone(self) -> u16
        ensures { result ≡ alone self.number }
    {
        1 << self.number
    }
}
