//! What holds of the definitions, whatever the code.
ghost use Rattle.mt_cells.specs.declared.bounds.Bounds.{Bounds};
ghost use Rattle.mt_cells.specs.Laws.{NumbersAreBelow, NumbersAreApart, NumbersAreOrdered};

/// The number of a cell is below the number of cells, another cell of the bounds has another number,
/// and a later one a greater number.
pub fn numbers()
    ensures below { (b : Bounds) → NumbersAreBelow b }
    ensures apart { (b : Bounds) → NumbersAreApart b }
    ensures ordered { (b : Bounds) → NumbersAreOrdered b }
{}
