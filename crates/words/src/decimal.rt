ghost use Rattle.std.specs.Prelude.{◌≡◌, ◌<◌, IfSome};
ghost use Rattle.words.specs.Decimal.{decimal, digit_of};

/// The value of a decimal digit.
fn digit(byte: u8) -> Option<u32>
    ensures value { result ≡ digit_of byte }
    ensures small { IfSome result (λ d. d < 10) }
{
    char::from(byte).to_digit(10)
}

/// The number that 1 to 10 decimal digits write.
// By hand, as `parse` takes a plus sign too.
pub fn number(word: &[u8]) -> Option<u64>
    ensures { result ≡ decimal word.now }
{
    if word.is_empty() || word.len() > 10 {
        return None;
    }
    let mut n = 0u64;
    for &byte in word {
        n = 10 * n + u64::from(digit(byte)?);
    }
    Some(n)
}
