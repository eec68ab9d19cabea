//! What holds of the definitions, whatever the code.
ghost use Rattle.std.specs.Prelude.{List};
ghost use Rattle.mt_cells.specs.declared.bounds.Bounds.{Bounds};
ghost use Rattle.mt_cells.specs.declared.rules.RuleSet.{RuleSet};
ghost use Rattle.mt_derive.specs.declared.events.Event.{Event};
ghost use Rattle.mt_table.specs.Laws.{ValuesAreClosed};

/// No instance of a configured rule concludes more from the values of its parents than the value of
/// its target, whatever the bounds, the rules and the events.
pub fn closed()
    ensures { (b : Bounds) (rules : RuleSet) (E : List Event) → ValuesAreClosed b rules E }
{}
