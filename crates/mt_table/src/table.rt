//! The values of all cells over the axioms and the live imports.
ghost use Rattle.std.specs.Prelude.{◌≡◌, ◌≤◌, ◌+◌, ◌++◌, ◌↔◌, [], ◌∷◌, IsTrue};
ghost use Rattle.mt_cells.specs.Cells.{InBounds, columns_of};
ghost use Rattle.mt_derive.specs.declared.events.Event.TheVariants.{Import, Withdraw};
ghost use Rattle.mt_derive.specs.Events.{entries_of, Follows};
ghost use Rattle.mt_derive.specs.Imports.{cell_by};
ghost use Rattle.mt_table.specs.Fixed.{IsFixed};
ghost use Rattle.mt_table.specs.Tables.{HasTried};

use crate::changes::Changes;
use crate::work::Work;
use mt_cells::{Bounds, Cell, RuleSet, Steps};
use mt_derive::{Event, Imports, MOST_IMPORTS, Node, Nodes};
use mt_strength::Checked;
use mt_system::Claim;
use std::alloc::{AllocError, Global};
use std::marker::Model;
use std::sync::ledger::Ledger;

/// The greatest values that derivations conclude for the cells of its bounds, by the configured rules
/// from the axioms and the live imports, and a derivation of each.
#[derive(Drop)]
pub struct Table {
    work: Work,
    imports: Imports,
    changes: Changes,
}

impl Model for Table {
    ghost use Rattle.std.specs.Prelude.{◌≡◌};
    ghost use Rattle.mt_table.specs.Tables.{Contents};

    ghost Value = { Contents };

    ghost use Rattle.mt_table.specs.Fixed.{IsFixed, AreSinces};

    ghost view = { λ t. record {
      bounds = t.work.bounds;
      rules = t.work.rules;
      events = t.imports.events;
      nodes = t.work.nodes;
      node_numbers = t.work.node_numbers.items;
    } };

    ghost use Rattle.mt_derive.specs.Events.{entries_of};

    ghost invariant = { λ t. IsFixed t.work (entries_of t.imports.events)
        × (t.imports.bounds ≡ t.work.bounds) × (t.changes.bounds ≡ t.work.bounds)
        × AreSinces t.work.bounds t.work.rules t.imports.events t.changes.sinces.items };
}

/// What an event did to a table: how many values changed, and how many instances of rules were tried.
#[derive(Clone, Copy, PartialEq, Eq, Debug)]
pub struct Applied {
    pub raised: u32,
    pub tried: u64,
}

fn is_inside(bounds: Bounds, claim: &Claim) -> bool
    ensures { IsTrue result ↔ InBounds bounds (cell_by claim.now.form claim.now.system) }
{
    claim.system.m() <= bounds.m_max && claim.system.s() <= bounds.s_max
}

// The strength of a claim, which is at most the columns of its system.
fn strength_of(entry: &Checked) -> u8
    ensures value { result ≡ entry.now.k }
    ensures within { result ≤ columns_of (cell_by entry.now.form entry.now.system) }
{
    entry.claim().k
}

// One more import: the instances that are tried are counted.
fn import<L: Ledger>(
    work: &mut Work,
    imports: &mut Imports,
    entry: &Checked,
    steps: &mut Steps<L>,
) -> u64
    requires fixed { IsFixed work.old (entries_of imports.old.events) }
    requires bounds { imports.old.bounds ≡ work.old.bounds }
    requires follows { Follows work.old.bounds imports.old.events (Import entry.now) }
    ensures events { imports.new.events ≡ imports.old.events ++ Import entry.now ∷ [] }
    ensures bounds { imports.new.bounds ≡ imports.old.bounds }
    ensures same_bounds { work.new.bounds ≡ work.old.bounds }
    ensures rules { work.new.rules ≡ work.old.rules }
    ensures fixed { IsFixed work.new (entries_of imports.new.events) }
    ensures counted { steps.new ≡ steps.old + result }
    ensures tried { HasTried work.old.bounds work.old.rules imports.old.events (Import entry.now) result }
{
    imports.push(entry);
    let _events = imports.events();
    let node = Node {
        k: strength_of(entry),
        ..imports.node(imports.len())
    };
    work.accept(node, steps)
}

// One import less: the instances that are tried are counted.
fn withdraw<L: Ledger>(work: &mut Work, imports: &mut Imports, n: u32, steps: &mut Steps<L>) -> u64
    requires fixed { IsFixed work.old (entries_of imports.old.events) }
    requires bounds { imports.old.bounds ≡ work.old.bounds }
    requires follows { Follows work.old.bounds imports.old.events (Withdraw n) }
    ensures events { imports.new.events ≡ imports.old.events ++ Withdraw n ∷ [] }
    ensures bounds { imports.new.bounds ≡ imports.old.bounds }
    ensures same_bounds { work.new.bounds ≡ work.old.bounds }
    ensures rules { work.new.rules ≡ work.old.rules }
    ensures fixed { IsFixed work.new (entries_of imports.new.events) }
    ensures counted { steps.new ≡ steps.old + result }
    ensures tried { HasTried work.old.bounds work.old.rules imports.old.events (Withdraw n) result }
{
    imports.withdraw(n);
    let _events = imports.events();
    work.rebuild(imports, steps)
}

// One more event: the instances that are tried are counted.
fn follow<L: Ledger>(
    work: &mut Work,
    imports: &mut Imports,
    entry: &Event,
    steps: &mut Steps<L>,
) -> u64
    requires fixed { IsFixed work.old (entries_of imports.old.events) }
    requires bounds { imports.old.bounds ≡ work.old.bounds }
    requires follows { Follows work.old.bounds imports.old.events entry.now }
    ensures events { imports.new.events ≡ imports.old.events ++ entry.now ∷ [] }
    ensures bounds { imports.new.bounds ≡ imports.old.bounds }
    ensures same_bounds { work.new.bounds ≡ work.old.bounds }
    ensures rules { work.new.rules ≡ work.old.rules }
    ensures fixed { IsFixed work.new (entries_of imports.new.events) }
    ensures counted { steps.new ≡ steps.old + result }
    ensures tried { HasTried work.old.bounds work.old.rules imports.old.events entry.now result }
{
    match entry {
        Event::Import(claim) => import(work, imports, claim, steps),
        Event::Withdraw(n) => withdraw(work, imports, *n, steps),
    }
}

impl Table {
    ghost use Rattle.std.specs.Prelude.{◌<◌, ◌*◌, ℕ, List, length, IfOk, OnErr};
    ghost use Rattle.mt_cells.specs.Instances.{fan_of};
    ghost use Rattle.mt_derive.specs.Trees.{IsValue};
    ghost use Rattle.mt_derive.specs.Values.{IsScore, IsSince, AreChanged};
    ghost use Rattle.mt_derive.specs.Concluded.{AllConclude};
    ghost use Rattle.mt_table.specs.Tables.{node_number_of, IsServed};

    /// The table without events. It takes all its room at once, for every import and event and every
    /// node that there can ever be, or refuses with `AllocError`. It tries at most `fan` instances for
    /// each one of its score.
    pub fn new<L: Ledger>(
        alloc: Global,
        bounds: Bounds,
        rules: RuleSet,
        steps: &mut Steps<L>,
    ) -> Result<Table, AllocError>
        ensures bounds { IfOk result (λ t. t.bounds ≡ bounds) }
        ensures rules { IfOk result (λ t. t.rules ≡ rules) }
        ensures events { IfOk result (λ t. t.events ≡ []) }
        ensures refused { OnErr result (steps.new ≡ steps.old) }
        ensures few { IfOk result (λ t. (score : ℕ) × IsScore bounds rules (entries_of []) score
            × (steps.new ≤ steps.old + fan_of bounds * score)) }
    {
        let imports = Imports::with_room(alloc, bounds)?;
        let changes = Changes::new(alloc, bounds)?;
        let mut work = Work::new(alloc, bounds, rules)?;
        work.propagate(steps);
        Ok(Table {
            work,
            imports,
            changes,
        })
    }

    /// A copy of the table, with as much room. It takes all its room at once, or refuses with
    /// `AllocError`.
    pub fn copy(&self, alloc: Global) -> Result<Table, AllocError>
        ensures { IfOk result (λ t. t ≡ self.now) }
    {
        let imports = self.imports.copy(alloc)?;
        let work = self.work.copy(alloc)?;
        let changes = self.changes.copy()?;
        Ok(Table {
            work,
            imports,
            changes,
        })
    }

    /// Whether the event may come next. An import may where there are fewer than 1,024, none has its
    /// name, and it is in the bounds; a withdrawal where its import is live.
    pub fn fits(&self, entry: &Event) -> bool
        ensures { IsTrue result ↔ Follows self.now.bounds self.now.events entry.now }
    {
        match entry {
            Event::Import(claim) => self.fits_import(claim),
            Event::Withdraw(n) => self.imports.live(*n),
        }
    }

    fn fits_import(&self, entry: &Checked) -> bool
        ensures { IsTrue result ↔ Follows self.now.bounds self.now.events (Import entry.now) }
    {
        let claim = entry.claim();
        if self.imports.len() as usize >= MOST_IMPORTS {
            return false;
        }
        if !is_inside(self.work.bounds, claim) {
            return false;
        }
        match self.imports.find(claim.name) {
            None => true,
            Some(_) => false,
        }
    }

    /// Appends an event that fits, and finds the values over the list with it: `raised` of them are
    /// others than before, and `tried` instances were tried, each in one step. These are at most `fan`
    /// for each one by which an import raises the score, and at most `fan` for each one of the score
    /// after a withdrawal. It takes no memory.
    pub fn apply<L: Ledger>(&mut self, entry: &Event, steps: &mut Steps<L>) -> Applied
        requires { Follows self.old.bounds self.old.events entry.now }
        ensures bounds { self.new.bounds ≡ self.old.bounds }
        ensures rules { self.new.rules ≡ self.old.rules }
        ensures events { self.new.events ≡ self.old.events ++ entry.now ∷ [] }
        ensures raised { (cells : List Cell) × AreChanged self.old.bounds self.old.rules
            self.old.events self.new.events cells × (result.raised ≡ length cells) }
        ensures counted { steps.new ≡ steps.old + result.tried }
        ensures tried { HasTried self.old.bounds self.old.rules self.old.events entry.now
            result.tried }
    {
        self.changes.keep(&self.work.values);
        let tried = follow(&mut self.work, &mut self.imports, entry, steps);
        let raised = self.changes.mark(&self.work.values, self.imports.events());
        Applied { raised, tried }
    }

    /// The bounds of the table.
    pub fn bounds(&self) -> Bounds
        ensures { result ≡ self.now.bounds }
    {
        self.work.bounds
    }

    /// The accepted events.
    pub fn imports(&self) -> &Imports
        ensures bounds { result.now.bounds ≡ self.now.bounds }
        ensures events { result.now.events ≡ self.now.events }
    {
        &self.imports
    }

    /// The nodes of the derivations.
    pub fn nodes(&self) -> &Nodes
        ensures value { result.now ≡ self.now.nodes }
        ensures concluded { AllConclude self.now.bounds self.now.rules (entries_of self.now.events)
            self.now.nodes.list }
    {
        &self.work.nodes
    }

    /// The number of a node that concludes the value of the cell.
    pub fn node_of(&self, cell: Cell) -> u32
        requires { InBounds self.now.bounds cell }
        ensures number { result ≡ node_number_of self.now cell }
        ensures below { result < length self.now.nodes.list }
        ensures served { IsServed self.now cell result }
    {
        self.work.node_number(cell)
    }

    /// The greatest strength, or `m - t` for a sequence, that a derivation concludes for the cell.
    pub fn value(&self, cell: Cell) -> u8
        requires { InBounds self.now.bounds cell }
        ensures { IsValue self.now.bounds self.now.rules (entries_of self.now.events) cell result }
    {
        self.work.value(cell)
    }

    /// The last event at which the value of the cell changed, counted from 1, or 0.
    pub fn since(&self, cell: Cell) -> u32
        requires { InBounds self.now.bounds cell }
        ensures { IsSince self.now.bounds self.now.rules self.now.events cell result }
    {
        self.changes.since(cell)
    }

    /// The sum of the values of all cells.
    pub fn score(&self) -> u64
        ensures { IsScore self.now.bounds self.now.rules (entries_of self.now.events) result }
    {
        self.work.sum()
    }

    /// How many events there are.
    pub fn version(&self) -> u32
        ensures { result ≡ length self.now.events }
    {
        self.imports.events()
    }
}
