//! The lines of a parent, but for those all of whose instances follow from others.
ghost use Rattle.std.specs.Prelude.{◌≡◌, ℕ, ◌<◌, ◌≤◌, ◌⊎◌, IsTrue, IfSome, MatchOption};
ghost use Rattle.mt_cells.specs.declared.lines.Stage.{Stage};
ghost use Rattle.mt_cells.specs.Spots.{IsPosition, IsSpot, IsRightLine, instance_at, key};
ghost use Rattle.mt_table.specs.Needs.{HasOneDepth, IsNeeded};

use mt_cells::{Cell, Line, Lines, Rule, Stage};

// The next line that is not empty, but for some all of whose instances follow from others.
pub(crate) fn next_line(lines: &mut Lines) -> Option<Line>
    ensures bounds { lines.new.bounds ≡ lines.old.bounds }
    ensures rules { lines.new.rules ≡ lines.old.rules }
    ensures cell { lines.new.cell ≡ lines.old.cell }
    ensures position { IfSome result (λ l. IsPosition lines.old.bounds l.stage l.m l.depth) }
    ensures line { IfSome result (λ l.
        IsRightLine lines.old.bounds lines.old.rules lines.old.cell l.stage l.m l.depth l) }
    ensures after { IfSome result (λ l.
        (key lines.old.stage lines.old.m lines.old.depth ≤ key l.stage l.m l.depth)
        × (key l.stage l.m l.depth < key lines.new.stage lines.new.m lines.new.depth)) }
    ensures some { IfSome result (λ l. l.first ≤ l.last) }
    ensures passed { (g : Stage) (m d s : ℕ)
        → IsSpot lines.old.bounds lines.old.rules lines.old.cell g m d s
        → IsNeeded lines.old.rules (instance_at lines.old.cell g m d s)
        → key lines.old.stage lines.old.m lines.old.depth ≤ key g m d
        → MatchOption result ⊥ (λ l. (key g m d ≡ key l.stage l.m l.depth)
        ⊎ (key lines.new.stage lines.new.m lines.new.depth ≤ key g m d)) }
{
    pass_lines(lines);
    lines.next()
}

// Moves on over lines all of whose instances follow from others.
fn pass_lines(lines: &mut Lines)
    ensures bounds { lines.new.bounds ≡ lines.old.bounds }
    ensures rules { lines.new.rules ≡ lines.old.rules }
    ensures cell { lines.new.cell ≡ lines.old.cell }
    ensures later { key lines.old.stage lines.old.m lines.old.depth
        ≤ key lines.new.stage lines.new.m lines.new.depth }
    ensures passed { (g : Stage) (m d s : ℕ)
        → IsSpot lines.old.bounds lines.old.rules lines.old.cell g m d s
        → IsNeeded lines.old.rules (instance_at lines.old.cell g m d s)
        → key lines.old.stage lines.old.m lines.old.depth ≤ key g m d
        → key lines.new.stage lines.new.m lines.new.depth ≤ key g m d }
{
    let Cell::Ooa { m, depth, .. } = lines.cell else {
        return;
    };
    if !has_one_depth(lines) {
        return;
    }
    let least = depth.min(lines.m);
    if lines.depth <= least {
        lines.depth = least;
    } else if lines.m < lines.bounds.m_max - m {
        lines.m += 1;
        lines.depth = depth.min(lines.m);
    }
}

// Whether of the other parents with the same m only those of one depth have instances of the stage
// which do not follow from others.
#[inline(always)]
fn has_one_depth(lines: &Lines) -> bool
    ensures { IsTrue result
        → HasOneDepth lines.now.bounds lines.now.rules lines.now.cell lines.now.stage }
{
    match (lines.stage, lines.cell) {
        (Stage::First(_), Cell::Ooa { m, depth, .. }) => {
            depth < m && lines.rules.has(Rule::Deeper)
        }
        (Stage::Second(_), _) => lines.rules.has(Rule::Deeper),
        _ => false,
    }
}
