mod group;

ghost use Rattle.std.specs.Prelude.{◌<◌};

/// One of the sixteen parties, by its number.
#[derive(Clone, Copy)]
pub struct Party {
    number: u8,
    ghost known: { number < 16 },
}
