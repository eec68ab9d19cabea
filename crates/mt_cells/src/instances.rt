//! Instances of rules, and what they conclude.
ghost use Rattle.std.specs.Prelude.{◌≡◌, ◌+◌, ◌*◌};
ghost use Rattle.mt_cells.specs.Cells.{InBounds};
ghost use Rattle.mt_cells.specs.Rules.{has_target as has_target_by, target, conclusion, deepened_strength};
ghost use Rattle.mt_cells.specs.Rules.{HasPairTarget, pair_target, pair_conclusion as conclusion_of_pair};
ghost use Rattle.mt_cells.specs.Instances.{conclusion_of, fan_of, second_or, IsListing};
ghost use Rattle.mt_cells.specs.Spots.{single_instance as single_of, pair_instance as pair_of};

use crate::bounds::Bounds;
use crate::cells::Cell;
use crate::lines::{Line, Lines, Stage, lines_of_parent};
use crate::rules::{Rule, RuleSet};
use mt_linear::{Order, Steps};
use std::marker::Model;
use std::sync::ledger::Ledger;

/// A rule with its parents and its target.
#[derive(Clone, Copy, PartialEq, Eq, Debug)]
pub struct Instance {
    pub rule: Rule,
    pub target: Cell,
    pub first: Cell,
    pub second: Option<Cell>,
}

impl Instance {
    /// The second parent, or the first where there is one only.
    #[inline(always)]
    pub fn other(&self) -> Cell
        ensures { result ≡ second_or self.now.first self.now.second }
    {
        match self.second {
            Some(cell) => cell,
            None => self.first,
        }
    }
}

/// The instances of a parent, seen as the list of those that are left.
#[derive(Debug, Drop)]
pub struct Instances {
    lines: Lines,
    line: Line,
    s: u8,
}

impl Model for Instances {
    ghost use Rattle.std.specs.Prelude.{List};
    ghost use Rattle.mt_cells.specs.declared.instances.Instance.{Instance};
    ghost use Rattle.mt_cells.specs.Listed.{IsCursor, instances_left};

    ghost Value = { List Instance };

    ghost view = { λ a. instances_left a.lines a.line a.s };

    ghost invariant = { λ a. IsCursor a.lines a.line a.s };
}

/// All instances with this parent, each once. It takes no memory.
pub fn instances_of_parent(bounds: Bounds, rules: RuleSet, cell: Cell) -> Instances
    requires { InBounds bounds cell }
    ensures { IsListing bounds rules cell result }
{
    // An empty line before all others.
    let line = Line {
        stage: Stage::Single(Rule::Fewer),
        m: 0,
        depth: 0,
        first: 1,
        last: 0,
        skip: 0,
    };
    Instances {
        lines: lines_of_parent(bounds, rules, cell),
        line,
        s: 1,
    }
}

impl Iterator for Instances {
    ghost use Rattle.std.specs.Iterator.{YieldsFirst, item_count};

    type Item = Instance;

    ghost next_gives = { YieldsFirst (λ left. left) };

    ghost remaining = { item_count (λ left. left) };

    fn next(&mut self) -> Option<Instance> {
        loop {
            let s = self.s;
            if self.line.last < s {
                self.line = self.lines.next()?;
                self.s = self.line.first;
            } else if s == self.line.skip {
                self.s += 1;
            } else {
                self.s += 1;
                let at = self.lines;
                return Some(self.line.instance(at.bounds, at.rules, at.cell, s));
            }
        }
    }
}

/// At least as many instances as any cell is a parent of.
pub fn fan(bounds: Bounds) -> u64
    ensures { result ≡ fan_of bounds }
{
    8 + 4 * bounds.s_max as u64 * bounds.m_max as u64 * bounds.m_max as u64
}

/// What the instance concludes from the values of its parents, in one step. A rule with one parent
/// does not look at `second`.
#[inline(always)]
pub fn conclude<L: Ledger>(instance: &Instance, first: u8, second: u8, steps: &mut Steps<L>) -> u8
    ensures value { result ≡ conclusion_of instance.now first second }
    ensures steps { steps.new ≡ steps.old + 1 }
{
    steps.tick();
    match instance.second {
        None => single_conclusion(instance.rule, instance.first, first),
        Some(other) => pair_conclusion(instance.rule, instance.first, other, first, second),
    }
}

// What a rule with two parents concludes from their values.
#[inline(always)]
fn pair_conclusion(rule: Rule, p: Cell, q: Cell, j: u8, k: u8) -> u8
    ensures { result ≡ conclusion_of_pair rule p q j k }
{
    let (Cell::Ooa { depth, .. }, Cell::Ooa { depth: deeper, .. }) = (p, q) else {
        return 0;
    };
    match rule {
        Rule::Product => deepened(depth, deeper, j).min(k),
        Rule::Uuv => (2 * deepened(depth, deeper, j) as u16 + 1).min(k as u16) as u8,
        _ => 0,
    }
}

// The strength of a system of strength k after its depth is raised.
#[inline(always)]
fn deepened(depth: u8, deeper: u8, k: u8) -> u8
    ensures { result ≡ deepened_strength depth deeper k }
{
    if depth == deeper { k } else { k.min(depth) }
}

// What a rule with one parent concludes from its value.
#[inline(always)]
fn single_conclusion(rule: Rule, parent: Cell, k: u8) -> u8
    ensures { result ≡ conclusion rule parent k }
{
    match rule {
        Rule::Deeper => match parent {
            Cell::Ooa { depth, .. } => k.min(depth),
            Cell::Seq { .. } => k,
        },
        Rule::QuotientKeep | Rule::QuotientDrop | Rule::SeqCut => k.saturating_sub(1),
        _ => k,
    }
}

// Whether a rule with one parent has a target for it.
#[inline(always)]
pub(crate) fn has_target(bounds: Bounds, rule: Rule, cell: Cell) -> bool
    ensures { result ≡ has_target_by bounds rule cell }
{
    match cell {
        Cell::Ooa { m, s, depth, .. } => match rule {
            Rule::Fewer => 2 <= s,
            Rule::Shallower => 2 <= depth,
            Rule::Deeper => depth < m,
            Rule::Longer => m < bounds.m_max,
            Rule::QuotientKeep => 2 <= m && 2 <= depth,
            Rule::QuotientDrop => 2 <= m && 2 <= s && depth < m,
            _ => false,
        },
        Cell::Seq { m, s, .. } => match rule {
            Rule::SeqFewer => 2 <= s,
            Rule::SeqCut => 2 <= m,
            Rule::SeqToNet => s < bounds.s_max,
            _ => false,
        },
    }
}

// The instance of a rule with one parent.
#[inline(always)]
pub(crate) fn single_instance(bounds: Bounds, rule: Rule, cell: Cell) -> Instance
    requires { InBounds bounds cell }
    ensures { result ≡ single_of rule cell }
{
    Instance {
        rule,
        target: target_of(bounds, rule, cell),
        first: cell,
        second: None,
    }
}

#[inline(always)]
fn target_of(bounds: Bounds, rule: Rule, cell: Cell) -> Cell
    requires { InBounds bounds cell }
    ensures { result ≡ target rule cell }
{
    let _ = bounds;
    match cell {
        Cell::Ooa { order, m, s, depth } => match rule {
            Rule::Fewer => array(order, m, s - 1, depth),
            Rule::Shallower => array(order, m, s, depth - 1),
            Rule::Deeper => array(order, m, s, depth + 1),
            Rule::Longer => array(order, m + 1, s, depth),
            Rule::QuotientKeep => array(order, m - 1, s, depth - 1),
            Rule::QuotientDrop => array(order, m - 1, s - 1, depth),
            _ => cell,
        },
        Cell::Seq { order, m, s } => match rule {
            Rule::SeqFewer => Cell::Seq { order, m, s: s - 1 },
            Rule::SeqCut => Cell::Seq { order, m: m - 1, s },
            Rule::SeqToNet => array(order, m, s + 1, m),
            _ => cell,
        },
    }
}

// The instance of a rule with two parents.
#[inline(always)]
pub(crate) fn pair_instance(bounds: Bounds, rule: Rule, p: Cell, q: Cell) -> Instance
    requires has { HasPairTarget bounds rule p q }
    ensures { result ≡ pair_of rule p q }
{
    Instance {
        rule,
        target: target_of_pair(bounds, rule, p, q),
        first: p,
        second: Some(q),
    }
}

#[inline(always)]
fn target_of_pair(bounds: Bounds, rule: Rule, p: Cell, q: Cell) -> Cell
    requires has { HasPairTarget bounds rule p q }
    ensures { result ≡ pair_target rule p q }
{
    let _ = (bounds, rule);
    match (p, q) {
        (
            Cell::Ooa { order, m, s, .. },
            Cell::Ooa {
                m: n,
                s: t,
                depth,
                ..
            },
        ) => array(order, m + n, s + t, depth),
        _ => p,
    }
}

#[inline(always)]
pub(crate) fn array(order: Order, m: u8, s: u8, depth: u8) -> Cell
    ensures { result ≡ Cell.Ooa order m s depth }
{
    Cell::Ooa { order, m, s, depth }
}
