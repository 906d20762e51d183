ghost use Rattle.std.specs.Prelude.{◌≡◌, if◌then◌else◌, Err};
ghost use Rattle.answer.specs.declared.Denial.TheVariants.{OutsideMode};
ghost use Rattle.key.specs.Meanings.{covers as covers_kind, grant};

use answer::Denial;
use label::Kind;

/// The kinds of request that a wrap covers.
#[derive(Clone, Copy)]
pub enum Mode {
    Releases,
    Endorsements,
    Both,
}

impl Mode {
    /// Tells whether the mode covers the kind.
    pub fn covers(self, kind: Kind) -> bool
        ensures { result ≡ covers_kind self kind }
    {
        matches!(
            (self, kind),
            (Mode::Both, _) | (Mode::Releases, Kind::Release) | (Mode::Endorsements, Kind::Endorse)
        )
    }

    /// Denies a kind that the mode does not cover.
    pub(crate) fn admit(self, kind: Kind) -> Result<(), Denial>
        ensures { result ≡ (if covers_kind self kind then grant else Err OutsideMode) }
    {
        if self.covers(kind) {
            Ok(())
        } else {
            Err(Denial::OutsideMode)
        }
    }
}
