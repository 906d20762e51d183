ghost use Rattle.std.specs.Prelude.{◌≡◌, ℕ, Bool, List, Decides, OnErr};
ghost use Rattle.label.specs.Marks.{Covered, CoveredByTwo, TouchesEither, JoinedMark};

use answer::Refusal;

/// A mark. Its meaning is the set of onlookers that it touches.
pub trait Compare {
    /// Who looks on at marks of this kind.
    ghost onlooker: { Type 0 };

    /// The mark as numbers: a formula's clauses, for sight and hand.
    ghost numbers: { Self → List ℕ };

    /// Whether a mark of these numbers touches the onlooker.
    ghost touches: { List ℕ → onlooker → Bool };

    /// Tells whether `other` touches everybody that this mark touches.
    fn covered_by(&self, other: &Self) -> bool
        ensures { Decides result (Covered touches (numbers self.now) (numbers other.now)) };

    /// Tells whether `a` and `b` together touch everybody that this mark touches.
    fn covered_by_two(&self, a: &Self, b: &Self) -> bool
        ensures { Decides result (CoveredByTwo touches (numbers self.now) (numbers a.now) (numbers b.now)) };
}

/// A mark that can be joined with another of its kind.
pub trait Join: Compare + Sized {
    /// The numbers of the joined mark.
    ghost joined: { List ℕ → List ℕ → List ℕ };

    /// Whether a mark of these numbers keeps to the size stated for its kind.
    ghost fits: { List ℕ → Bool };

    // A rule of the project: a join fills a lent place and answers a plain `Result`.
    /// Fills `out` with the joined mark. A refusal leaves `out` as it was, and comes only where the
    /// joined mark passes its size: no mark of this kind touches exactly those that either touches.
    fn join(&self, other: &Self, out: &mut Self) -> Result<(), Refusal>
        ensures joined { JoinedMark fits (λ _. Self.Compare.numbers out.new) (joined (Self.Compare.numbers self.now) (Self.Compare.numbers other.now)) result }
        ensures kept { OnErr result (out.new ≡ out.old) }
        ensures needed { OnErr result ((m : Self) → TouchesEither Self.Compare.touches (Self.Compare.numbers m) (Self.Compare.numbers self.now) (Self.Compare.numbers other.now) → ⊥) };

    /// A joined mark touches exactly those that either part touches.
    ghost either: { (a b : List ℕ) → TouchesEither Self.Compare.touches (joined a b) a b };
}

/// The join of two marks, in a place of its own.
pub fn join_marks<M: Join + Copy>(a: &M, b: &M) -> Result<M, Refusal>
    ensures { JoinedMark M.Join.fits M.Compare.numbers (M.Join.joined (M.Compare.numbers a.now) (M.Compare.numbers b.now)) result }
{
    let mut out = *a;
    a.join(b, &mut out)?;
    Ok(out)
}
