//! What holds of the definitions, whatever the code.
ghost use Rattle.std.specs.Prelude.{ℕ};
ghost use Rattle.mt_system.specs.Rows.{Matrices};
ghost use Rattle.mt_strength.specs.Laws.{StrengthIsExact};

/// A system of at least k rows has strength k where every choice of exactly k rows is independent,
/// which is the usual definition (Niederreiter, 1987; Lawrence, 1996; Mullen and Schmid, 1996).
pub fn exact_strength()
    ensures { (a : Matrices) (k : ℕ) → StrengthIsExact a k }
{}
