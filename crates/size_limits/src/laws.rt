//! Programs have one weight, and their domain one number of paths.

ghost use Rattle.std.specs.Prelude.{◌≡◌, ℕ, List};
ghost use Rattle.fs_semantics.specs.Programs.{Program};
ghost use Rattle.size_limits.specs.Weights.{Weighs};
ghost use Rattle.size_limits.specs.Paths.{HasPaths};

/// Programs have one weight at most.
pub fn weights()
    ensures { (es : List Program) (v w : ℕ) → Weighs es v → Weighs es w → v ≡ w }
{}

/// The domain of programs has one number of paths at most.
pub fn path_counts()
    ensures { (es : List Program) (n m : ℕ) → HasPaths es n → HasPaths es m → n ≡ m }
{}
