ghost use Rattle.std.specs.Prelude.{◌≡◌};
ghost use Rattle.words.specs.Modes.{mode_of};

use key::Mode;

/// The mode that a word writes: d, e or de.
// A function and no `TryFrom`, as `Mode` is of another crate.
pub fn mode_word(word: &[u8]) -> Option<Mode>
    ensures { result ≡ mode_of word.now }
{
    match word {
        [b'd'] => Some(Mode::Releases),
        [b'e'] => Some(Mode::Endorsements),
        [b'd', b'e'] => Some(Mode::Both),
        _ => None,
    }
}
