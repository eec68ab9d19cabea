//! Values of cells with their derivations, and the cells whose value rose.
ghost use Rattle.std.specs.Prelude.{◌≡◌, ℕ, ◌+◌, ◌*◌, List, length};
ghost use Rattle.mt_cells.specs.declared.bounds.TheConstants.{MOST_COLUMNS};
ghost use Rattle.mt_cells.specs.Cells.{coordinates_of, cells_of};
ghost use Rattle.mt_table.specs.Shapes.{IsShaped, NoneBefore, ArePlaced, ArePlaced-prop, HasRoom, AreTops, sum_of};
ghost use Rattle.mt_table.specs.Starts.{StartsWithAxioms, AreSet};
ghost use Rattle.mt_table.specs.Needs.{depth_of};

use crate::needed_lines::next_line;
use mt_cells::{
    Bounds, Cell, Instance, Line, Rule, RuleSet, Stage, Steps, conclude, lines_of_parent,
};
use mt_derive::{Axioms, Imports, Made, Node, Nodes};
use std::alloc::{AllocError, Global};
use std::sync::ledger::Ledger;

// Values, numbers of nodes and flags by the numbers of cells. A cell's node concludes its value. A
// flag says that the cell waits to be tried as a parent; there is none before `from`.
#[derive(Drop)]
pub(crate) struct Work {
    pub(crate) bounds: Bounds,
    pub(crate) rules: RuleSet,
    pub(crate) values: Vec<u8>,
    pub(crate) node_numbers: Vec<u32>,
    pub(crate) nodes: Nodes,
    flags: Vec<bool>,
    from: usize,
    ghost shaped: { IsShaped bounds values.items flags.items node_numbers.items },
    ghost before: { NoneBefore flags.items from },
    ghost placed: { ArePlaced bounds nodes.list node_numbers.items values.items } by { ArePlaced-prop bounds nodes.list node_numbers.items values.items },
    ghost roomy: { ∥ HasRoom bounds nodes values.items ∥₁ },
}

// How many nodes a table may ever have: one for each cell, and one for each rise of its value up to
// its columns.
fn room_of(bounds: Bounds) -> u32
    ensures { (tops : List ℕ) × AreTops bounds (cells_of bounds) tops
        × (result ≡ cells_of bounds + sum_of tops) }
{
    let mut room = 0;
    for n in 0..bounds.cells() {
        room += Cell::at(bounds, n).columns() as u32 + 1;
    }
    room
}

// Each cell has the value of its axiom, and its node, and waits where the value is over 0. The nodes
// of the axioms are the first, in the order of cells.
fn set_to_axioms(
    bounds: Bounds,
    nodes: &Nodes,
    values: &mut Vec<u8>,
    node_numbers: &mut Vec<u32>,
    flags: &mut Vec<bool>,
)
    requires axioms { StartsWithAxioms bounds nodes.now.list (cells_of bounds) }
    requires values { length values.old.items ≡ cells_of bounds }
    requires node_numbers { length node_numbers.old.items ≡ cells_of bounds }
    requires flags { length flags.old.items ≡ cells_of bounds }
    ensures values { length values.new.items ≡ cells_of bounds }
    ensures node_numbers { length node_numbers.new.items ≡ cells_of bounds }
    ensures flags { length flags.new.items ≡ cells_of bounds }
    ensures set { AreSet nodes.now.list values.new.items node_numbers.new.items flags.new.items
        (cells_of bounds) }
{
    for n in 0..bounds.cells() {
        let node = nodes.get(n);
        values[n as usize] = node.k;
        node_numbers[n as usize] = n;
        flags[n as usize] = node.k > 0;
    }
}

// The rows of each coordinate of the cell's systems; 0 for a sequence.
fn depth(cell: Cell) -> u8
    ensures { result ≡ depth_of cell }
{
    match cell {
        Cell::Ooa { depth, .. } => depth,
        Cell::Seq { .. } => 0,
    }
}

fn coordinates(cell: Cell) -> u8
    ensures { result ≡ coordinates_of cell }
{
    match cell {
        Cell::Ooa { s, .. } | Cell::Seq { s, .. } => s,
    }
}

impl Work {
    ghost use Rattle.std.specs.Prelude.{◌<◌, ◌≤◌, ◌⊎◌, true, false, get_or, IsTrue, IfOk, IfSome, IfNone};
    ghost use Rattle.mt_cells.specs.Cells.{InBounds, columns_of, number};
    ghost use Rattle.mt_derive.specs.Closed.{second_of};
    ghost use Rattle.mt_cells.specs.Instances.{IsInstance, conclusion_of, fan_of, has_rule};
    ghost use Rattle.mt_cells.specs.Spots.{IsUsed, instance_at};
    ghost use Rattle.mt_table.specs.Needs.{IsNeeded, NoneNeeded};
    ghost use Rattle.mt_derive.specs.Nodes.{IsRight};
    ghost use Rattle.mt_derive.specs.declared.nodes.Made.TheVariants.{Import};
    ghost use Rattle.mt_derive.specs.Events.{entries_of};
    ghost use Rattle.mt_derive.specs.Values.{sum_to};
    ghost use Rattle.mt_table.specs.Works.{values_of, value_in, node_number_in, made_of, IsStart, AllPropagated, IsPropagated, IsLineOf, IsNeededLine, LinePropagated};
    ghost use Rattle.mt_table.specs.Works.{IsCopy, ParentPropagated, Grows, IsPut, IsRaised, IsTaken, IsOver, Rises, Propagates};
    ghost use Rattle.mt_table.specs.Works.{IsIdle, AllDone, Pays, Tries, Accepts};
    ghost use Rattle.mt_table.specs.Fixed.{StandsOn, LiveFit};

    // The values of the axioms. The cells of which an axiom says more than 0 wait.
    pub(crate) fn new(alloc: Global, bounds: Bounds, rules: RuleSet) -> Result<Work, AllocError>
        ensures bounds { IfOk result (λ w. w.bounds ≡ bounds) }
        ensures rules { IfOk result (λ w. w.rules ≡ rules) }
        ensures start { IfOk result IsStart }
    {
        let cells = bounds.cells() as usize;
        let axioms = Axioms::new(alloc, bounds)?;
        let mut nodes = Nodes::with_room(alloc, room_of(bounds))?;
        let mut values = vec![in alloc; 0u8; cells]?;
        let mut node_numbers = vec![in alloc; 0u32; cells]?;
        let mut flags = vec![in alloc; false; cells]?;
        for n in 0..bounds.cells() {
            let node = axioms.node(Cell::at(bounds, n));
            nodes.push(node);
        }
        set_to_axioms(bounds, &nodes, &mut values, &mut node_numbers, &mut flags);
        Ok(Work {
            bounds,
            rules,
            values,
            node_numbers,
            nodes,
            flags,
            from: 0,
        })
    }

    // Back to the values of the axioms, as `new` gives them.
    fn restart(&mut self)
        requires { StartsWithAxioms self.old.bounds self.old.nodes.list (cells_of self.old.bounds) }
        ensures bounds { self.new.bounds ≡ self.old.bounds }
        ensures rules { self.new.rules ≡ self.old.rules }
        ensures start { IsStart self.new }
    {
        self.nodes.keep(self.bounds.cells());
        set_to_axioms(
            self.bounds,
            &self.nodes,
            &mut self.values,
            &mut self.node_numbers,
            &mut self.flags,
        );
        self.from = 0;
    }

    // A copy, with as much room.
    pub(crate) fn copy(&self, alloc: Global) -> Result<Work, AllocError>
        ensures { IfOk result (IsCopy self.now) }
    {
        Ok(Work {
            bounds: self.bounds,
            rules: self.rules,
            values: self.values.clone()?,
            node_numbers: self.node_numbers.clone()?,
            nodes: self.nodes.copy(alloc)?,
            flags: self.flags.clone()?,
            from: self.from,
        })
    }

    #[inline(always)]
    pub(crate) fn value(&self, cell: Cell) -> u8
        requires { InBounds self.now.bounds cell }
        ensures value { result ≡ value_in self.now cell }
        ensures high { result ≤ MOST_COLUMNS }
        ensures within { result ≤ columns_of cell }
    {
        self.values[cell.number(self.bounds) as usize]
    }

    // The same where a loop has the bounds at hand, and need not read them again.
    #[inline(always)]
    fn value_by(&self, bounds: Bounds, cell: Cell) -> u8
        requires bounds { bounds ≡ self.now.bounds }
        requires inside { InBounds bounds cell }
        ensures value { result ≡ value_in self.now cell }
        ensures high { result ≤ MOST_COLUMNS }
    {
        self.values[cell.number(bounds) as usize]
    }

    // The number of the node that concludes the cell's value.
    pub(crate) fn node_number(&self, cell: Cell) -> u32
        requires { InBounds self.now.bounds cell }
        ensures { result ≡ node_number_in self.now cell }
    {
        self.node_numbers[cell.number(self.bounds) as usize]
    }

    // The sum of the values of all cells.
    pub(crate) fn sum(&self) -> u64
        ensures { result ≡ sum_to (cells_of self.now.bounds) (values_of self.now) }
    {
        let mut total = 0;
        for value in &self.values {
            total += *value as u64;
        }
        total
    }

    // Takes the first cell that waits.
    fn take(&mut self) -> Option<u32>
        ensures some { IfSome result (IsTaken self.old self.new) }
        ensures none { IfNone result (IsOver self.old self.new) }
    {
        while self.from < self.flags.len() {
            if self.flags[self.from] {
                self.flags[self.from] = false;
                return Some(self.from as u32);
            }
            self.from += 1;
        }
        None
    }

    // The rule with the nodes of the instance's parents.
    fn made_by(&self, instance: &Instance) -> Made
        requires { IsInstance self.now.bounds self.now.rules instance.now }
        ensures { result ≡ made_of self.now instance.now }
    {
        let first = self.node_number(instance.first);
        match instance.second {
            None => Made::One(instance.rule, first),
            Some(second) => Made::Two(instance.rule, first, self.node_number(second)),
        }
    }

    // The target takes what the instance concludes for its value, and waits.
    fn raise(&mut self, instance: Instance, k: u8)
        requires instance { IsInstance self.old.bounds self.old.rules instance }
        requires concluded { k ≡ conclusion_of instance (value_in self.old instance.first)
            (value_in self.old (second_of instance)) }
        requires higher { value_in self.old instance.target < k }
        requires high { k ≤ MOST_COLUMNS }
        ensures { IsRaised self.old self.new instance k }
    {
        let made = self.made_by(&instance);
        self.put(Node {
            made,
            cell: instance.target,
            k,
        });
    }

    // The cell of the node takes its value, and waits.
    fn put(&mut self, node: Node)
        requires inside { InBounds self.old.bounds node.cell }
        requires right { IsRight self.old.nodes.list node }
        requires higher { value_in self.old node.cell < node.k }
        requires within { node.k ≤ columns_of node.cell }
        requires high { node.k ≤ MOST_COLUMNS }
        ensures { IsPut self.old self.new node }
    {
        let n = node.cell.number(self.bounds) as usize;
        let latest = self.nodes.len();
        self.nodes.push(node);
        self.node_numbers[n] = latest;
        self.values[n] = node.k;
        self.flags[n] = true;
        self.from = self.from.min(n);
    }

    // Whether the parent beside the one whose instances are tried waits too. Then the instance is
    // tried when that one is taken.
    #[inline(always)]
    fn waits_beside(&self, bounds: Bounds, stage: Stage, instance: &Instance) -> bool
        requires bounds { bounds ≡ self.now.bounds }
        requires instance { IsInstance self.now.bounds self.now.rules instance.now }
        ensures { IsTrue result → IsPropagated self.now instance.now }
    {
        match stage {
            Stage::Second(_) => self.waits(bounds, instance.first),
            _ => self.waits(bounds, instance.other()),
        }
    }

    #[inline(always)]
    fn waits(&self, bounds: Bounds, cell: Cell) -> bool
        requires bounds { bounds ≡ self.now.bounds }
        requires inside { InBounds bounds cell }
        ensures { result ≡ get_or self.now.flags.items (number self.now.bounds cell) false }
    {
        self.flags[cell.number(bounds) as usize]
    }

    // Tries the instance once, unless its other parent waits, and counts it.
    #[inline(always)]
    fn offer<L: Ledger>(
        &mut self,
        bounds: Bounds,
        stage: Stage,
        instance: Instance,
        steps: &mut Steps<L>,
    ) -> u64
        requires bounds { bounds ≡ self.old.bounds }
        requires instance { IsInstance self.old.bounds self.old.rules instance }
        ensures grows { Grows self.old self.new }
        ensures propagated { IsPropagated self.new instance }
        ensures counted { steps.new ≡ steps.old + result }
        ensures once { result ≤ 1 }
    {
        if self.waits_beside(bounds, stage, &instance) {
            return 0;
        }
        self.conclude(bounds, instance, steps);
        1
    }

    // Raises the target to what the instance concludes, if that is more.
    #[inline(always)]
    fn conclude<L: Ledger>(&mut self, bounds: Bounds, instance: Instance, steps: &mut Steps<L>)
        requires bounds { bounds ≡ self.old.bounds }
        requires instance { IsInstance self.old.bounds self.old.rules instance }
        ensures grows { Grows self.old self.new }
        ensures propagated { IsPropagated self.new instance }
        ensures once { steps.new ≡ steps.old + 1 }
    {
        let first = self.value_by(bounds, instance.first);
        let second = self.value_by(bounds, instance.other());
        let k = conclude(&instance, first, second, steps);
        if self.value_by(bounds, instance.target) < k {
            self.raise(instance, k);
        }
    }

    // Whether a product may follow from (u,u+v).
    fn may_follow_uuv(&self, rule: Rule) -> bool
        ensures { IsTrue result → (rule ≡ Rule.Product)
            × (has_rule self.now.rules Rule.Uuv ≡ true) }
    {
        match rule {
            Rule::Product => self.rules.has(Rule::Uuv),
            _ => false,
        }
    }

    // Whether all pairs follow from others whose first parent has these columns and this depth, and
    // whose second parent is as deep as that.
    fn all_follow(&self, rule: Rule, m: u8, depth: u8, deeper: u8) -> bool
        ensures { IsTrue result → NoneNeeded self.now.rules rule m depth deeper }
    {
        if self.rules.has(Rule::Deeper) && depth < m.min(deeper) {
            return true;
        }
        self.may_follow_uuv(rule) && deeper <= depth
    }

    // No pair with the cell as first that does not follow from others has a greater `s` in the line.
    fn last_needed(&self, rule: Rule, cell: Cell, line: &Line) -> u8
        ensures low { result ≤ line.now.last }
        ensures all { (s : ℕ) → s ≤ line.now.last → IsNeeded self.now.rules
            (instance_at cell (Stage.First rule) line.now.m line.now.depth s) → s ≤ result }
    {
        if self.all_follow(rule, cell.columns(), depth(cell), line.depth) {
            return 0;
        }
        if self.may_follow_uuv(rule) {
            return line.last.min(coordinates(cell).saturating_sub(1));
        }
        line.last
    }

    // None with the cell as second has a lower `s`.
    fn first_needed(&self, rule: Rule, cell: Cell, line: &Line) -> u8
        ensures { (s : ℕ) → s ≤ line.now.last → IsNeeded self.now.rules
            (instance_at cell (Stage.Second rule) line.now.m line.now.depth s) → result ≤ s }
    {
        if self.all_follow(rule, line.m, line.depth, depth(cell)) {
            return u8::MAX;
        }
        if self.may_follow_uuv(rule) {
            return coordinates(cell).saturating_add(1);
        }
        0
    }

    // The part of the line that has all instances which do not follow from others.
    fn needed(&self, cell: Cell, line: &Line) -> Line
        requires right { IsLineOf self.now cell line.now }
        requires some { line.now.first ≤ line.now.last }
        ensures stage { result.stage ≡ line.now.stage }
        ensures m { result.m ≡ line.now.m }
        ensures depth { result.depth ≡ line.now.depth }
        ensures last { result.last ≤ line.now.last }
        ensures part { IsNeededLine self.now cell result }
    {
        match line.stage {
            Stage::First(rule) => {
                let last = self.last_needed(rule, cell, line);
                Line {
                    last: last.max(line.first - 1),
                    ..*line
                }
            }
            Stage::Second(rule) => {
                let first = self.first_needed(rule, cell, line);
                Line {
                    first: first.min(line.last + 1).max(line.first),
                    ..*line
                }
            }
            _ => *line,
        }
    }

    // Tries each instance of the line that does not follow from others once, unless its other parent
    // waits, and counts those.
    fn try_line<L: Ledger>(&mut self, cell: Cell, line: &Line, steps: &mut Steps<L>) -> u64
        requires inside { InBounds self.old.bounds cell }
        requires right { IsLineOf self.old cell line.now }
        requires some { line.now.first ≤ line.now.last }
        ensures grows { Grows self.old self.new }
        ensures tried { LinePropagated self.old cell line.now self.new }
        ensures counted { steps.new ≡ steps.old + result }
        ensures few { result ≤ line.now.last }
        ensures used { (result ≡ 0) ⊎ IsUsed line.now.stage }
    {
        let part = self.needed(cell, line);
        self.try_part(cell, &part, steps)
    }

    // The same of such a part. In a loop of its own for each rule with two parents the stage is a
    // constant, so that nothing is decided anew for each instance.
    fn try_part<L: Ledger>(&mut self, cell: Cell, line: &Line, steps: &mut Steps<L>) -> u64
        requires inside { InBounds self.old.bounds cell }
        requires right { IsNeededLine self.old cell line.now }
        ensures grows { Grows self.old self.new }
        ensures tried { LinePropagated self.old cell line.now self.new }
        ensures counted { steps.new ≡ steps.old + result }
        ensures few { result ≤ line.now.last }
        ensures used { (result ≡ 0) ⊎ IsUsed line.now.stage }
    {
        match line.stage {
            Stage::First(Rule::Product) => self.run_stage(
                cell,
                line,
                Stage::First(Rule::Product),
                steps,
            ),
            Stage::First(Rule::Uuv) => self.run_stage(cell, line, Stage::First(Rule::Uuv), steps),
            Stage::Second(Rule::Product) => self.run_stage(
                cell,
                line,
                Stage::Second(Rule::Product),
                steps,
            ),
            Stage::Second(Rule::Uuv) => self.run_stage(cell, line, Stage::Second(Rule::Uuv), steps),
            _ => self.run_line(cell, line, steps),
        }
    }

    // The same of a line of this stage.
    #[inline(always)]
    fn run_stage<L: Ledger>(
        &mut self,
        cell: Cell,
        line: &Line,
        stage: Stage,
        steps: &mut Steps<L>,
    ) -> u64
        requires inside { InBounds self.old.bounds cell }
        requires right { IsNeededLine self.old cell line.now }
        requires stage { line.now.stage ≡ stage }
        ensures grows { Grows self.old self.new }
        ensures tried { LinePropagated self.old cell line.now self.new }
        ensures counted { steps.new ≡ steps.old + result }
        ensures few { result ≤ line.now.last }
        ensures used { (result ≡ 0) ⊎ IsUsed line.now.stage }
    {
        let line = Line { stage, ..*line };
        self.run_line(cell, &line, steps)
    }

    #[inline(always)]
    fn run_line<L: Ledger>(&mut self, cell: Cell, line: &Line, steps: &mut Steps<L>) -> u64
        requires inside { InBounds self.old.bounds cell }
        requires right { IsNeededLine self.old cell line.now }
        ensures grows { Grows self.old self.new }
        ensures tried { LinePropagated self.old cell line.now self.new }
        ensures counted { steps.new ≡ steps.old + result }
        ensures few { result ≤ line.now.last }
        ensures used { (result ≡ 0) ⊎ IsUsed line.now.stage }
    {
        let mut count = 0;
        let bounds = self.bounds;
        for s in line.first..line.last + 1 {
            if s != line.skip {
                let instance = line.instance(bounds, self.rules, cell, s);
                count += self.offer(bounds, line.stage, instance, steps);
            }
        }
        count
    }

    // Tries each instance of the parent once, and counts them.
    fn try_all<L: Ledger>(&mut self, cell: Cell, steps: &mut Steps<L>) -> u64
        requires { InBounds self.old.bounds cell }
        ensures grows { Grows self.old self.new }
        ensures tried { ParentPropagated self.old cell self.new }
        ensures counted { steps.new ≡ steps.old + result }
        ensures few { result ≤ fan_of self.old.bounds }
    {
        let mut count = 0;
        let mut lines = lines_of_parent(self.bounds, self.rules, cell);
        while let Some(line) = next_line(&mut lines) {
            count += self.try_line(cell, &line, steps);
        }
        count
    }

    // Takes the cell of this number, if it waits.
    fn take_at(&mut self, n: u32) -> bool
        requires { n < cells_of self.old.bounds }
        ensures taken { IsTrue result → IsTaken self.old self.new n }
        ensures unchanged { result ≡ false → self.new ≡ self.old }
    {
        if !self.flags[n as usize] {
            return false;
        }
        self.flags[n as usize] = false;
        true
    }

    // Tries the instances of the sequences that wait, so that arrays start from what these give: in
    // the order of cells they come after the arrays, whose instances would be tried over again.
    fn propagate_sequences<L: Ledger>(&mut self, steps: &mut Steps<L>) -> u64
        requires { AllPropagated self.old }
        ensures propagated { AllPropagated self.new }
        ensures rises { Rises self.old self.new }
        ensures counted { steps.new ≡ steps.old + result }
        ensures pays { Pays self.old self.new result }
    {
        let mut count = 0;
        for n in 0..self.bounds.cells() {
            let cell = Cell::at(self.bounds, n);
            if matches!(cell, Cell::Seq { .. }) && self.take_at(n) {
                count += self.try_all(cell, steps);
            }
        }
        count
    }

    // Tries the instances of cells that wait until none does, and counts them.
    pub(crate) fn propagate<L: Ledger>(&mut self, steps: &mut Steps<L>) -> u64
        requires { AllPropagated self.old }
        ensures propagates { Propagates self.old self.new }
        ensures counted { steps.new ≡ steps.old + result }
        ensures pays { Pays self.old self.new result }
    {
        let mut count = self.propagate_sequences(steps);
        while let Some(n) = self.take() {
            let cell = Cell::at(self.bounds, n);
            count += self.try_all(cell, steps);
        }
        count
    }

    // Takes what the node of an import says of its cell, and counts the instances that are tried.
    pub(crate) fn accept<L: Ledger>(&mut self, node: Node, steps: &mut Steps<L>) -> u64
        requires done { AllDone self.old }
        requires idle { IsIdle self.old }
        requires inside { InBounds self.old.bounds node.cell }
        requires within { node.k ≤ columns_of node.cell }
        requires import { (n : ℕ) × (node.made ≡ Import n) }
        ensures accepts { Accepts self.old self.new node }
        ensures counted { steps.new ≡ steps.old + result }
        ensures tries { Tries self.old self.new result }
    {
        if node.k <= self.value(node.cell) {
            return 0;
        }
        self.put(node);
        self.propagate(steps)
    }

    // The values over these events, from those of the axioms on: import by import, the live ones. The
    // instances that are tried are counted.
    pub(crate) fn rebuild<L: Ledger>(&mut self, imports: &Imports, steps: &mut Steps<L>) -> u64
        requires axioms { StartsWithAxioms self.old.bounds self.old.nodes.list
            (cells_of self.old.bounds) }
        requires bounds { imports.now.bounds ≡ self.old.bounds }
        requires fits { LiveFit self.old.bounds imports.now.events }
        ensures bounds { self.new.bounds ≡ self.old.bounds }
        ensures rules { self.new.rules ≡ self.old.rules }
        ensures stands { StandsOn self.new (entries_of imports.now.events)
            (length (entries_of imports.now.events) + 1) }
        ensures counted { steps.new ≡ steps.old + result }
        ensures few { result ≤ fan_of self.new.bounds * sum_of self.new.values.items }
    {
        self.restart();
        let mut count = self.propagate(steps);
        for earlier in 0..imports.len() {
            let n = earlier + 1;
            if imports.live(n) {
                count += self.accept(imports.node(n), steps);
            }
        }
        count
    }
}
