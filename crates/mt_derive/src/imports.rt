//! The accepted events: imports of claims, and their withdrawals.
ghost use Rattle.std.specs.Prelude.{◌≡◌, ◌≤◌, ◌↔◌, [], length, IsTrue, IfOk};
ghost use Rattle.mt_system.specs.Refusals.{wanted_of};
ghost use Rattle.mt_system.specs.Statements.{statement_of};
ghost use Rattle.mt_strength.specs.Statements.{Holds};
ghost use Rattle.mt_derive.specs.Imports.{cell_by};

use crate::events::Event;
use crate::nodes::{Made, Node};
use mt_cells::{Bounds, Cell};
use mt_strength::Checked;
use mt_system::{Claim, Form, Name, System};
use std::alloc::{AllocError, Global};
use std::marker::Model;

/// How many imports there may be.
pub const MOST_IMPORTS: usize = 1024;

/// How many events there may be: each import, and its withdrawal.
pub const MOST_EVENTS: usize = 2048;

/// The accepted events in the order in which they came, with room for as many imports within the
/// bounds as there may be, and for the withdrawal of each.
#[derive(Drop)]
pub struct Imports {
    bounds: Bounds,
    events: Vec<Event>,
    // for each import, whether it is live
    live: Vec<bool>,
    // room for the digits of the imports to come
    free: Vec<Vec<u8>>,
}

impl Model for Imports {
    ghost use Rattle.std.specs.Prelude.{◌≡◌, ◌+◌, ◌≤◌, [], length, All};
    ghost use Rattle.mt_derive.specs.declared.imports.TheConstants.{MOST_IMPORTS, MOST_EVENTS};
    ghost use Rattle.mt_derive.specs.Events.{AllFollow};
    ghost use Rattle.mt_derive.specs.Flags.{AreFlags};
    ghost use Rattle.mt_derive.specs.Imports.{ImportList, digits_of};

    ghost Value = { ImportList };

    ghost view = { λ a. record { bounds = a.bounds; events = a.events.items } };

    ghost invariant = { λ a. AllFollow a.bounds a.events.items
        × AreFlags a.events.items a.live.items
        × (length a.live.items + length a.free.items ≡ MOST_IMPORTS)
        × (MOST_EVENTS ≤ a.events.cap) × (MOST_IMPORTS ≤ a.live.cap)
        × All (λ f. (f.items ≡ []) × (digits_of a.bounds ≤ f.cap)) a.free.items };
}

impl Imports {
    ghost use Rattle.std.specs.Prelude.{◌<◌, ◌-◌, ◌++◌, ◌∷◌, MatchOption};
    ghost use Rattle.mt_cells.specs.Cells.{InBounds};
    ghost use Rattle.mt_derive.specs.declared.events.Event.TheVariants.{Import, Withdraw};
    ghost use Rattle.mt_derive.specs.Events.{imports_of, entries_of, IsLive, AllFollow};
    ghost use Rattle.mt_derive.specs.Imports.{IsImport, LacksName, IsNamed};
    ghost use Rattle.mt_derive.specs.Nodes.{import_node};
    ghost use Rattle.mt_derive.specs.Places.{IsAt};

    /// No events, with room for as many as there may be. It takes all its room at once, or refuses.
    pub fn with_room(alloc: Global, bounds: Bounds) -> Result<Imports, AllocError>
        ensures { IfOk result (λ a. a ≡ record { bounds = bounds; events = [] }) }
    {
        let room = bounds.s_max as usize * bounds.m_max as usize * bounds.m_max as usize;
        let events = Vec::with_capacity(alloc, MOST_EVENTS)?;
        let live = Vec::with_capacity(alloc, MOST_IMPORTS)?;
        let mut free = Vec::with_capacity(alloc, MOST_IMPORTS)?;
        for _ in 0..MOST_IMPORTS {
            free.push(Vec::with_capacity(alloc, room)?)?;
        }
        Ok(Imports {
            bounds,
            events,
            live,
            free,
        })
    }

    /// Appends a copy of the import. It takes no memory: there is room.
    pub fn push(&mut self, entry: &Checked)
        requires few { length (imports_of self.old.events) < MOST_IMPORTS }
        requires inside { InBounds self.old.bounds (cell_by entry.now.form entry.now.system) }
        requires named { LacksName (imports_of self.old.events) entry.now.name }
        ensures events { self.new.events ≡ self.old.events ++ Import entry.now ∷ [] }
        ensures bounds { self.new.bounds ≡ self.old.bounds }
    {
        let claim = entry.claim();
        let Some(room) = self.free.pop() else {
            unreachable!();
        };
        self.events
            .push_reserved(Event::Import(copied(claim, room)));
        self.live.push_reserved(true);
    }

    /// Appends the withdrawal of import `n`, counted from 1, which is live. It takes no memory: there
    /// is room.
    pub fn withdraw(&mut self, n: u32)
        requires { IsLive self.old.events n }
        ensures events { self.new.events ≡ self.old.events ++ Withdraw n ∷ [] }
        ensures bounds { self.new.bounds ≡ self.old.bounds }
    {
        self.events.push_reserved(Event::Withdraw(n));
        self.live[n as usize - 1] = false;
    }

    /// A copy, with as much room.
    pub fn copy(&self, alloc: Global) -> Result<Imports, AllocError>
        ensures { IfOk result (λ a. a ≡ self.now) }
    {
        let mut imports = Imports::with_room(alloc, self.bounds)?;
        for event in &self.events {
            match event {
                Event::Import(entry) => imports.push(entry),
                Event::Withdraw(n) => imports.withdraw(*n),
            }
        }
        Ok(imports)
    }

    /// How many imports there are, withdrawn or not.
    pub fn len(&self) -> u32
        ensures { result ≡ length (imports_of self.now.events) }
    {
        self.live.len() as u32
    }

    /// How many events there are.
    pub fn events(&self) -> u32
        ensures count { result ≡ length self.now.events }
        ensures follow { AllFollow self.now.bounds self.now.events }
    {
        self.events.len() as u32
    }

    /// Whether import `n`, counted from 1, is there and no event withdraws it.
    pub fn live(&self, n: u32) -> bool
        ensures { IsTrue result ↔ IsLive self.now.events n }
    {
        n > 0 && n as usize <= self.live.len() && self.live[n as usize - 1]
    }

    /// The node of import `n`, counted from 1.
    pub fn node(&self, n: u32) -> Node
        requires from { 1 ≤ n }
        requires to { n ≤ length (imports_of self.now.events) }
        ensures { result ≡ import_node (entries_of self.now.events) n }
    {
        let claim = self.get(n);
        Node {
            made: Made::Import(n),
            cell: claimed_cell(claim),
            k: claim.k,
        }
    }

    /// The number of the import with this name, counted from 1, whether it is live or not. `None`
    /// where there is none.
    pub fn find(&self, name: Name) -> Option<u32>
        ensures { MatchOption result (LacksName (imports_of self.now.events) name)
            (IsNamed (imports_of self.now.events) name) }
    {
        let mut count = 0;
        for event in &self.events {
            if let Event::Import(entry) = event {
                count += 1;
                if is_named(entry, name) {
                    return Some(count);
                }
            }
        }
        None
    }

    /// Whether import `n`, counted from 1, is the same claim: its form, name, note, strength, sizes
    /// and digits.
    pub fn same(&self, n: u32, claim: &Claim) -> bool
        requires from { 1 ≤ n }
        requires to { n ≤ length (imports_of self.now.events) }
        ensures { IsTrue result
            ↔ IsImport (imports_of self.now.events) n (statement_of claim.now) }
    {
        are_same(self.get(n), claim)
    }

    /// A copy of import `n`, counted from 1.
    pub fn copy_of(&self, alloc: Global, n: u32) -> Result<Checked, AllocError>
        requires from { 1 ≤ n }
        requires to { n ≤ length (imports_of self.now.events) }
        ensures { IfOk result (IsImport (imports_of self.now.events) n) }
    {
        fresh(alloc, self.get(n))
    }

    /// A copy of event `n`, counted from 1.
    pub fn event_of(&self, alloc: Global, n: u32) -> Result<Event, AllocError>
        requires from { 1 ≤ n }
        requires to { n ≤ length self.now.events }
        ensures { IfOk result (IsAt self.now.events (n - 1)) }
    {
        match &self.events[n as usize - 1] {
            Event::Import(entry) => Ok(Event::Import(fresh(alloc, entry.claim())?)),
            Event::Withdraw(number) => Ok(Event::Withdraw(*number)),
        }
    }

    /// Import `n`, counted from 1.
    pub(crate) fn get(&self, n: u32) -> &Claim
        requires from { 1 ≤ n }
        requires to { n ≤ length (imports_of self.now.events) }
        ensures place { IsImport (imports_of self.now.events) n (statement_of result.now) }
        ensures holds { Holds (statement_of result.now) }
    {
        let mut count = 0;
        for event in &self.events {
            if let Event::Import(entry) = event {
                count += 1;
                if count == n {
                    return entry.claim();
                }
            }
        }
        unreachable!()
    }
}

fn is_named(entry: &Checked, name: Name) -> bool
    ensures { IsTrue result ↔ (entry.now.name ≡ name) }
{
    entry.claim().name.bytes() == name.bytes()
}

// The cell of the claim's system; a net is an array whose depth is its number of columns.
fn claimed_cell(claim: &Claim) -> Cell
    ensures { result ≡ cell_by claim.now.form claim.now.system }
{
    let system = &claim.system;
    let (order, m, s, depth) = (system.order(), system.m(), system.s(), system.depth());
    match claim.form {
        Form::Ooa | Form::Net => Cell::Ooa { order, m, s, depth },
        Form::Seq => Cell::Seq { order, m, s },
    }
}

// Whether the two claims are the same.
fn are_same(a: &Claim, b: &Claim) -> bool
    ensures { IsTrue result ↔ (statement_of a.now ≡ statement_of b.now) }
{
    a.form == b.form
        && a.name.bytes() == b.name.bytes()
        && a.note.bytes() == b.note.bytes()
        && a.k == b.k
        && are_same_systems(&a.system, &b.system)
}

fn are_same_systems(a: &System, b: &System) -> bool
    ensures { IsTrue result ↔ (a.now ≡ b.now) }
{
    a.order() == b.order()
        && a.m() == b.m()
        && a.s() == b.s()
        && a.depth() == b.depth()
        && a.digits() == b.digits()
}

// A copy of the claim.
fn fresh(alloc: Global, claim: &Claim) -> Result<Checked, AllocError>
    requires { Holds (statement_of claim.now) }
    ensures { IfOk result (λ checked. checked ≡ statement_of claim.now) }
{
    let room = Vec::with_capacity(alloc, claim.system.digits().len())?;
    Ok(copied(claim, room))
}

// The claim, with its digits in this room.
fn copied(claim: &Claim, room: Vec<u8>) -> Checked
    requires empty { room.items ≡ [] }
    requires room { wanted_of claim.now.system ≤ room.cap }
    requires holds { Holds (statement_of claim.now) }
    ensures { result ≡ statement_of claim.now }
{
    let system = &claim.system;
    let mut digits = room;
    for digit in system.digits() {
        digits.push_reserved(*digit);
    }
    let (order, m, s, depth) = (system.order(), system.m(), system.s(), system.depth());
    Checked::known(Claim {
        form: claim.form,
        name: claim.name,
        note: claim.note,
        k: claim.k,
        system: System::of_elements(order, m, s, depth, digits),
    })
}
