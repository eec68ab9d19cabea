//! Laws of steps and of records.
ghost use Rattle.std.specs.Prelude.{ℕ, List};
ghost use Rattle.mt_cells.specs.declared.bounds.Bounds.{Bounds};
ghost use Rattle.mt_cells.specs.declared.rules.RuleSet.{RuleSet};
ghost use Rattle.mt_derive.specs.declared.events.Event.{Event};
ghost use Rattle.mt_service.specs.Records.{StandForOne};
ghost use Rattle.mt_service.specs.Laws.{HasOneStep};

/// Records stand for at most one list of events: opened again they give the same.
pub fn one_list()
    ensures { (b : Bounds) (records : List (List ℕ)) → StandForOne b records }
{
    mt_import::laws::one_event();
    mt_import::laws::one_reading();
}

/// Over one list a text comes to one kind of outcome and to one list, but for the keeper's fault and
/// want of memory.
pub fn one_step()
    ensures { (b : Bounds) (rules : RuleSet) (E : List Event) (text : List ℕ)
        → HasOneStep b rules E text }
{
    mt_import::laws::one_event();
    mt_import::laws::one_reading();
}
