//! What holds of the definitions, whatever the code.
ghost use Rattle.mt_cells.specs.declared.bounds.Bounds.{Bounds};
ghost use Rattle.mt_cells.specs.declared.rules.RuleSet.{RuleSet};
ghost use Rattle.mt_server.specs.Interleavings.{AllAreOneHistory};

/// Texts that come to outcomes, publications, views, fronts and readers that learn them, in any order
/// in which they may come: the accepted list is that of the steps, what is published at any time
/// begins it, and is at most one event behind. Each view of a reader extends what the reader was shown
/// or learnt before, and each front what any reader was. Each name is imported at most once, and
/// each import withdrawn at most once.
pub fn interleavings()
    ensures { (b : Bounds) (rules : RuleSet) → AllAreOneHistory b rules }
{}
