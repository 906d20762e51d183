ghost use Rattle.std.specs.Prelude.{◌≡◌};
ghost use Rattle.words.specs.Hex.{hex_digit, hex_four};

/// The value of a lowercase hexadecimal digit.
// By hand, as `to_digit` takes capitals too.
fn hex_digit(byte: u8) -> Option<u16>
    ensures { result ≡ hex_digit byte }
{
    match byte {
        b'0'..=b'9' => Some(u16::from(byte - b'0')),
        b'a'..=b'f' => Some(u16::from(byte - b'a') + 10),
        _ => None,
    }
}

/// The group or clause that four lowercase hexadecimal digits write.
pub fn hex_four(word: &[u8]) -> Option<u16>
    ensures { result ≡ hex_four word.now }
{
    match word {
        &[a, b, c, d] => {
            let a = hex_digit(a)?;
            let b = hex_digit(b)?;
            let c = hex_digit(c)?;
            let d = hex_digit(d)?;
            Some(((a * 16 + b) * 16 + c) * 16 + d)
        }
        _ => None,
    }
}
