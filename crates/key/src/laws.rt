ghost use Rattle.key.specs.Laws.{KeyLaws, OverRobustLaw};

/// When plain keys, bounded wraps and robust wraps grant, over every key and every request; and that
/// a release granted by a robust wrap, or by wraps over one, lets in nobody with a hand.
pub fn key_laws()
    ensures keys { KeyLaws }
    ensures over { OverRobustLaw }
{}
