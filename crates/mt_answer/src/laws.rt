//! What holds of the definitions, whatever the code.
ghost use Rattle.std.specs.Prelude.{List};
ghost use Rattle.mt_derive.specs.declared.events.Event.{Event};
ghost use Rattle.mt_cells.specs.declared.bounds.Bounds.{Bounds};
ghost use Rattle.mt_cells.specs.declared.rules.RuleSet.{RuleSet};
ghost use Rattle.mt_answer.specs.Laws.{ValuesAreUnique};

/// A question for a value has one answer over a list of imports.
pub fn one_value()
    ensures { (b : Bounds) (rules : RuleSet) (E : List Event) → ValuesAreUnique b rules E }
{}
