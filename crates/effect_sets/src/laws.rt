//! The law on programs that are apart.

ghost use Rattle.fs_semantics.specs.Programs.{Program};
ghost use Rattle.fs_semantics.specs.Changes.{IsProper, Commutes};
ghost use Rattle.effect_sets.specs.Footprints.{footprint, AreApart};

/// Two programs whose footprints are apart end alike in either order, from every file tree, Error included.
pub fn apart_programs()
    ensures { (e f : Program) → IsProper e → IsProper f → AreApart (footprint e) (footprint f) → Commutes e f }
{}
