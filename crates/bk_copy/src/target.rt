//! Where a copy goes.
ghost use Rattle.std.specs.Prelude.{◌++◌, ℕ, List, OnOk, IfErr};

/// Where the pieces of a copy go: a place on what `S` is, as a file on a disk.
pub trait Target<S> {
    /// How a piece is refused.
    type Refusal;

    /// A piece may be added.
    ghost ready: { Self → S → Type 0 };

    /// From the first to the second these bytes were added, and nothing else was done.
    ghost gained: { Self → S → List ℕ → S → Type 0 };

    /// From the first to the second some bytes were added, and a piece was refused so.
    ghost stopped: { Self → S → S → Self.Refusal → Type 0 };

    /// Adds a piece.
    fn add(&self, holder: &mut S, piece: &[u8]) -> Result<(), Self::Refusal>
        requires { ready self.now holder.old }
        ensures ready { OnOk result (ready self.now holder.new) }
        ensures gained { OnOk result ((first : S) (text : List ℕ) → gained self.now first text holder.old
            → gained self.now first (text ++ piece.now) holder.new) }
        ensures stopped { IfErr result (λ why. (first : S) (text : List ℕ) → gained self.now first text holder.old
            → stopped self.now first holder.new why) };
}
