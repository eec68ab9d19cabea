//! A table that takes an import and its withdrawal, and the copies that it gives of them.
ghost use Rattle.std.specs.Prelude.{◌≡◌, ◌<◌, IfOk};

use crate::tests::{CAPS, text_of};
use mt_cells::{Bounds, RuleSet, Steps};
use mt_derive::{Event, Imports};
use mt_import::print_import;
use mt_service::check_text;
use mt_table::Table;
use std::alloc::{AllocError, Global};
use std::marker::Brand;
use std::sync::ledger::{Blank, Ledger};
use std::test::Fail;

// The table without events by all rules.
pub(crate) fn table_of<L: Ledger>(
    alloc: Global,
    bounds: Bounds,
    blank: Blank,
) -> Result<Table, AllocError>
    requires name { blank.name ≡ L.name }
    requires parts { blank.parts ≡ L.parts }
    requires some { 0 < L.parts }
    ensures { IfOk result (λ t. t.bounds ≡ bounds) }
{
    let mut steps = Steps::<L>::of(blank);
    Table::new(alloc, bounds, RuleSet::all(), &mut steps)
}

// Applies the event, where it fits.
fn apply<L: Ledger>(table: &mut Table, event: &Event, blank: Blank) -> Result<u32, Fail>
    requires name { blank.name ≡ L.name }
    requires parts { blank.parts ≡ L.parts }
    requires some { 0 < L.parts }
{
    let mut steps = Steps::<L>::of(blank);
    if !table.fits(event) {
        return Err("it does not fit")?;
    }
    Ok(table.apply(event, &mut steps).raised)
}

// The text of a copy of the first import.
fn first_text(alloc: Global, imports: &Imports) -> Result<Vec<u8>, Fail> {
    if imports.len() == 0 {
        return Err("there is no import")?;
    }
    let copied = imports.copy_of(alloc, 1)?;
    if !imports.same(1, copied.claim()) {
        return Err("the copy is another claim")?;
    }
    Ok(print_import(alloc, copied.claim())?)
}

// The import that the last event withdraws.
fn last_withdrawn(alloc: Global, imports: &Imports) -> Result<u32, Fail> {
    let last = imports.events();
    if last == 0 {
        return Err("there is no event")?;
    }
    match imports.event_of(alloc, last)? {
        Event::Import(_) => Err("it is an import")?,
        Event::Withdraw(n) => Ok(n),
    }
}

#[test]
fn an_import_and_its_withdrawal(rt: HostRuntime) -> Result<(), Fail> {
    let alloc = rt.alloc();
    let bounds = Bounds::new(4, 8).ok_or("bounds")?;
    let mut table = table_of::<Brand>(alloc, bounds, Blank::new(1))?;
    let text = text_of(alloc, &[(b"net 2 4 7 1 caps7\n", 1), (CAPS, 1)])?;
    let Ok(checked) = check_text(alloc, bounds, &text)? else {
        return Err("it does not hold")?;
    };
    assert_eq!(rt;
        apply::<Brand>(&mut table, &Event::Import(checked), Blank::new(1))?,
        5
    );
    assert_eq!(rt;
        first_text(alloc, table.imports())?.as_slice(),
        text.as_slice()
    );
    assert_eq!(rt;
        apply::<Brand>(&mut table, &Event::Withdraw(1), Blank::new(1))?,
        5
    );
    assert_eq!(rt; last_withdrawn(alloc, table.imports())?, 1);
    assert_eq!(rt;
        first_text(alloc, table.imports())?.as_slice(),
        text.as_slice()
    );
    Ok(())
}
