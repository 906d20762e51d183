ghost use Rattle.std.specs.Prelude.{◌≡◌, Some};
ghost use Rattle.label.specs.Kinds.{kind_bit, kind_text};

use std::fmt;

/// The two ways to replace one formula of a record's label.
#[derive(Clone, Copy, PartialEq, Eq, Debug)]
pub enum Kind {
    /// A release replaces the sight formula (declassification).
    Release,
    /// An endorsement replaces the hand formula.
    Endorse,
}

impl From<Kind> for u16 {
    ghost from_gives = { λ kind bit. bit ≡ kind_bit kind };

    fn from(kind: Kind) -> u16 {
        match kind {
            Kind::Release => 0,
            Kind::Endorse => 1,
        }
    }
}

impl fmt::Display for Kind {
    ghost output = { λ kind. Some (kind_text kind) };

    fn fmt<W: fmt::Write>(&self, f: &mut fmt::Formatter<W>) -> fmt::Result {
        match self {
            Kind::Release => write!(f, "release"),
            Kind::Endorse => write!(f, "endorse"),
        }
    }
}
