//! The lines of instances of a parent.
ghost use Rattle.std.specs.Prelude.{◌≡◌, ◌≢◌, ℕ, ◌+◌, ◌-◌, ◌*◌, ◌<◌, ◌≤◌, ◌⊎◌, ◌↔◌, true, IsTrue, IfSome, MatchOption};
ghost use Rattle.mt_cells.specs.Cells.{InBounds, coordinates_of};
ghost use Rattle.mt_cells.specs.Rules.{HasTarget, is_pair_rule, rule_index};
ghost use Rattle.mt_cells.specs.Instances.{has_rule};
ghost use Rattle.mt_cells.specs.Propositions.{InBounds-prop};
ghost use Rattle.mt_cells.specs.Spots.{IsPosition, IsSpot, IsUsed, IsRightLine, first_stage, instance_at, key, other, rank};
ghost use Rattle.mt_cells.specs.Spots.{FitsFirst, FitsSecond, reach as reach_of};
ghost use Rattle.mt_cells.specs.Spots.{least_second as least_second_of, most_first as most_first_of};

use crate::bounds::Bounds;
use crate::cells::Cell;
use crate::instances::{Instance, array, has_target, pair_instance, single_instance};
use crate::rules::{Rule, RuleSet};

/// The kinds of instances that a parent has, in their order: those of each rule in turn. A rule has
/// either instances with one parent or those with two.
#[derive(Clone, Copy, PartialEq, Eq, Debug)]
pub enum Stage {
    /// The instance of a rule with one parent.
    Single(Rule),
    /// Those of a rule with two parents with the cell as the first.
    First(Rule),
    /// Those with the cell as the second, but for that with itself.
    Second(Rule),
    End,
}

impl Stage {
    // The first stage of the rule.
    fn of_rule(rule: Option<Rule>) -> Stage
        ensures { result ≡ first_stage rule }
    {
        match rule {
            Some(rule) if rule.is_pair() => Stage::First(rule),
            Some(rule) => Stage::Single(rule),
            None => Stage::End,
        }
    }

    // The first stage of the next rule.
    fn after(rule: Rule) -> Stage
        ensures later { 3 * rule_index rule + 2 < rank result }
        ensures none { (g : Stage) → IsUsed g → 3 * rule_index rule + 3 ≤ rank g
            → rank result ≤ rank g }
    {
        Stage::of_rule(rule.following())
    }

    // The next stage that may have instances.
    fn following(self) -> Stage
        requires { self ≢ Stage.End }
        ensures later { rank self < rank result }
        ensures none { (g : Stage) → IsUsed g → rank self < rank g → rank result ≤ rank g }
    {
        match self {
            Stage::Single(rule) => {
                if rule.is_pair() {
                    Stage::First(rule)
                } else {
                    Stage::after(rule)
                }
            }
            Stage::First(rule) => Stage::Second(rule),
            Stage::Second(rule) => Stage::after(rule),
            Stage::End => Stage::End,
        }
    }
}

/// The instances of one stage whose other parent has this `m` and `depth`: its `s` goes from `first`
/// to `last`, but for `skip`.
///
/// A rule with one parent has no other parent. Its line has `m` and `depth` 1, and only `s` 1.
#[derive(Clone, Copy, Debug)]
pub struct Line {
    pub stage: Stage,
    pub m: u8,
    pub depth: u8,
    pub first: u8,
    pub last: u8,
    pub skip: u8,
}

/// Where the lines of a parent go on.
#[derive(Clone, Copy, Debug)]
pub struct Lines {
    pub bounds: Bounds,
    pub rules: RuleSet,
    pub cell: Cell,
    pub stage: Stage,
    pub m: u8,
    pub depth: u8,
    ghost inside: { InBounds bounds cell } by { InBounds-prop bounds cell },
    ghost position: { IsPosition bounds stage m depth },
}

/// The lines of all instances with this parent.
pub fn lines_of_parent(bounds: Bounds, rules: RuleSet, cell: Cell) -> Lines
    requires { InBounds bounds cell }
    ensures bounds { result.bounds ≡ bounds }
    ensures rules { result.rules ≡ rules }
    ensures cell { result.cell ≡ cell }
    ensures first { (g : Stage) (m d s : ℕ) → IsSpot bounds rules cell g m d s
        → key result.stage result.m result.depth ≤ key g m d }
{
    Lines {
        bounds,
        rules,
        cell,
        stage: Stage::Single(Rule::Fewer),
        m: 1,
        depth: 1,
    }
}

impl Line {
    /// The instance of the line at this `s` of the other parent.
    #[inline(always)]
    pub fn instance(&self, bounds: Bounds, rules: RuleSet, cell: Cell, s: u8) -> Instance
        requires inside { InBounds bounds cell }
        requires spot { IsSpot bounds rules cell self.now.stage self.now.m self.now.depth s }
        ensures { result ≡ instance_at cell self.now.stage self.now.m self.now.depth s }
    {
        let _ = rules;
        let other = array(cell.order(), self.m, s, self.depth);
        match self.stage {
            Stage::Single(rule) => single_instance(bounds, rule, cell),
            Stage::First(rule) => pair_instance(bounds, rule, cell, other),
            Stage::Second(rule) => pair_instance(bounds, rule, other, cell),
            Stage::End => single_instance(bounds, Rule::Fewer, cell),
        }
    }
}

impl Lines {
    // Whether a rule with one parent is configured and has a target.
    fn applies(&self, rule: Rule) -> bool
        ensures { IsTrue result ↔ ((has_rule self.now.rules rule ≡ true)
            × HasTarget self.now.bounds rule self.now.cell) }
    {
        self.rules.has(rule) && has_target(self.bounds, rule, self.cell)
    }

    // The line at this position, which may be empty.
    fn line(&self) -> Line
        ensures { IsRightLine self.now.bounds self.now.rules self.now.cell
            self.now.stage self.now.m self.now.depth result }
    {
        let mut line = Line {
            stage: self.stage,
            m: self.m,
            depth: self.depth,
            first: 1,
            last: 0,
            skip: 0,
        };
        match self.stage {
            Stage::Single(rule) => {
                if self.applies(rule) {
                    line.last = 1;
                }
            }
            Stage::First(rule) => {
                line.first = self.least_second(rule);
                line.last = self.room_of_second(rule);
            }
            Stage::Second(rule) => {
                line.last = self.most_first(rule);
                line.skip = self.own();
            }
            Stage::End => {}
        }
        line
    }

    // The coordinates of the cell.
    fn coordinates(&self) -> u8
        ensures { result ≡ coordinates_of self.now.cell }
    {
        match self.cell {
            Cell::Ooa { s, .. } | Cell::Seq { s, .. } => s,
        }
    }

    // The least `s` of a second parent beside the cell.
    fn least_second(&self, rule: Rule) -> u8
        ensures { result ≡ least_second_of rule self.now.cell }
    {
        match rule {
            Rule::Uuv => self.coordinates(),
            _ => 1,
        }
    }

    // The greatest `s` of a first parent beside the cell.
    fn most_first(&self, rule: Rule) -> u8
        ensures high { result ≤ self.now.bounds.s_max - 1 }
        ensures fits { (s : ℕ) → 1 ≤ s → ((s ≤ result) ↔ (FitsSecond self.now.bounds self.now.rules
            rule self.now.cell self.now.m self.now.depth s
            × (s ≤ most_first_of rule self.now.cell s))) }
    {
        let room = self.room_of_first(rule);
        match rule {
            Rule::Uuv => self.coordinates().min(room),
            _ => room,
        }
    }

    // The `s` at which the other parent is the cell itself, or 0.
    fn own(&self) -> u8
        ensures { (s : ℕ) → 1 ≤ s
            → ((s ≢ result) ↔ (other self.now.cell self.now.m self.now.depth s ≢ self.now.cell)) }
    {
        match self.cell {
            Cell::Ooa { m, s, depth, .. } if m == self.m && depth == self.depth => s,
            _ => 0,
        }
    }

    // The greatest `s` of a second parent; 0 where the cell is not the first with such.
    fn room_of_second(&self, rule: Rule) -> u8
        ensures high { result ≤ self.now.bounds.s_max - 1 }
        ensures fits { (s : ℕ) → 1 ≤ s → ((s ≤ result) ↔ FitsFirst self.now.bounds self.now.rules rule
            self.now.cell self.now.m self.now.depth s) }
    {
        match self.cell {
            Cell::Ooa { m, s, depth, .. } if self.pairs(rule, m) && depth <= self.depth => {
                self.bounds.s_max - s
            }
            _ => 0,
        }
    }

    // The greatest `s` of a first parent; 0 where the cell is not the second with such.
    fn room_of_first(&self, rule: Rule) -> u8
        ensures high { result ≤ self.now.bounds.s_max - 1 }
        ensures fits { (s : ℕ) → 1 ≤ s → ((s ≤ result) ↔ FitsSecond self.now.bounds self.now.rules rule
            self.now.cell self.now.m self.now.depth s) }
    {
        match self.cell {
            Cell::Ooa { m, s, depth, .. } if self.pairs(rule, m) && self.depth <= depth => {
                self.bounds.s_max - s
            }
            _ => 0,
        }
    }

    // Whether the rule has two parents and is configured, and a cell with this m leaves room for the columns.
    fn pairs(&self, rule: Rule, m: u8) -> bool
        requires { m ≤ self.now.bounds.m_max }
        ensures { IsTrue result ↔ ((is_pair_rule rule ≡ true) × (has_rule self.now.rules rule ≡ true)
            × (m + self.now.m ≤ self.now.bounds.m_max)) }
    {
        rule.is_pair() && self.rules.has(rule) && m + self.m <= self.bounds.m_max
    }

    /// The next line that is not empty.
    pub fn next(&mut self) -> Option<Line>
        ensures bounds { self.new.bounds ≡ self.old.bounds }
        ensures rules { self.new.rules ≡ self.old.rules }
        ensures cell { self.new.cell ≡ self.old.cell }
        ensures position { IfSome result (λ l. IsPosition self.old.bounds l.stage l.m l.depth) }
        ensures line { IfSome result (λ l.
            IsRightLine self.old.bounds self.old.rules self.old.cell l.stage l.m l.depth l) }
        ensures after { IfSome result (λ l.
            (key self.old.stage self.old.m self.old.depth ≤ key l.stage l.m l.depth)
            × (key l.stage l.m l.depth < key self.new.stage self.new.m self.new.depth)) }
        ensures some { IfSome result (λ l. l.first ≤ l.last) }
        ensures passed { (g : Stage) (m d s : ℕ)
            → IsSpot self.old.bounds self.old.rules self.old.cell g m d s
            → key self.old.stage self.old.m self.old.depth ≤ key g m d
            → MatchOption result ⊥ (λ l. (key g m d ≡ key l.stage l.m l.depth)
            ⊎ (key self.new.stage self.new.m self.new.depth ≤ key g m d)) }
        ensures later { key self.old.stage self.old.m self.old.depth
            ≤ key self.new.stage self.new.m self.new.depth }
    {
        while self.stage != Stage::End {
            let line = self.line();
            self.step();
            if line.first <= line.last {
                return Some(line);
            }
        }
        None
    }

    // To the next position. No spot lies between.
    fn step(&mut self)
        requires { self.old.stage ≢ Stage.End }
        ensures bounds { self.new.bounds ≡ self.old.bounds }
        ensures rules { self.new.rules ≡ self.old.rules }
        ensures cell { self.new.cell ≡ self.old.cell }
        ensures later { key self.old.stage self.old.m self.old.depth
            < key self.new.stage self.new.m self.new.depth }
        ensures none { (g : Stage) (m d s : ℕ)
            → IsSpot self.old.bounds self.old.rules self.old.cell g m d s
            → key self.old.stage self.old.m self.old.depth < key g m d
            → key self.new.stage self.new.m self.new.depth ≤ key g m d }
    {
        if self.depth < self.m {
            self.depth += 1;
        } else if self.m < self.reach() {
            self.m += 1;
            self.depth = 1;
        } else {
            self.stage = self.stage.following();
            self.m = 1;
            self.depth = 1;
        }
    }

    // The greatest `m` of the other parent.
    fn reach(&self) -> u8
        ensures { result ≡ reach_of self.now.bounds self.now.cell self.now.stage }
    {
        match self.stage {
            Stage::Single(_) | Stage::End => 1,
            Stage::First(_) | Stage::Second(_) => match self.cell {
                Cell::Ooa { m, .. } => self.bounds.m_max - m,
                Cell::Seq { .. } => 1,
            },
        }
    }
}
